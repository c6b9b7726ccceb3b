ghost use Rattle.std.specs.Prelude.{map};

use super::*;
use fault_io::{BytesOut, WriteFault};
use sat_terms::CubeList;
use std::test::Fail;

/// Cubes as slices.
#[derive(Drop)]
struct Cubes(&'static [&'static [i32]]);

impl CubeList for Cubes {
    ghost cubes = { λ c. map (λ s. s.now) c.0.now };

    fn count(&self) -> usize {
        self.0.len()
    }

    fn at(&self, i: usize) -> &[i32] {
        self.0[i]
    }
}

const TWO: &[&[i32]] = &[&[-1, 2], &[1]];

#[test]
fn a_listing_has_a_line_for_each_cube(rt: HostRuntime) -> Result<(), Fail> {
    let alloc = rt.alloc();
    let rows: [(&[&[i32]], &str); 4] = [
        (TWO, "v -1 2 0\nv 1 0\ns ALL\n"),
        (&[&[]], "v 0\ns ALL\n"),
        (&[], "s ALL\n"),
        (
            &[&[2147483647], &[-2147483647]],
            "v 2147483647 0\nv -2147483647 0\ns ALL\n",
        ),
    ];
    for (cubes, text) in rows {
        let mut sink = BytesOut::make(alloc, 64, 4, Vec::new(alloc))?;
        assert_eq!(rt; write_listing(&Cubes(cubes), &mut sink), Ok(()));
        assert_eq!(rt; sink.bytes(), text.as_bytes());
    }
    Ok(())
}

#[test]
fn a_fault_leaves_the_bytes_accepted_before_it(rt: HostRuntime) -> Result<(), Fail> {
    let alloc = rt.alloc();
    let text = b"v -1 2 0\nv 1 0\ns ALL\n";
    for (call, accepted) in [(1, 0), (2, 4), (3, 8), (4, 12), (5, 16), (6, 20)] {
        let mut sink = BytesOut::make(alloc, 64, 4, [call].to_vec(alloc)?)?;
        assert_eq!(rt; write_listing(&Cubes(TWO), &mut sink), Err(WriteFault));
        assert_eq!(rt; sink.bytes(), &text[..accepted], "at call {call}");
    }
    Ok(())
}
