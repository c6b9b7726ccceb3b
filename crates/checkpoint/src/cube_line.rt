//! The numbers of one cube line or open line.
ghost use Rattle.std.specs.Prelude.{◌≡◌, nat_abs, nat_lt, ◌^◌, IfOk, IfErr};
ghost use Rattle.std.specs.List.{list_all};
ghost use Rattle.sat_terms.specs.Cubes.{rises_above};
ghost use Rattle.checkpoint.specs.CubeLines.{AreCubeLine, IsNoCubeLine};

use std::alloc::{AllocError, Global};

/// Why the numbers give no cube.
#[derive(Clone, Copy, Debug, PartialEq, Eq)]
pub enum CubeLineRefused {
    /// They are not literals whose variables rise, and one 0 behind them.
    Bad,
    /// There was no memory.
    OutOfMemory(AllocError),
}

impl From<AllocError> for CubeLineRefused {
    ghost use Rattle.std.specs.Prelude.{◌≡◌};
    ghost use Rattle.checkpoint.specs.declared.cube_line.CubeLineRefused.TheVariants.{OutOfMemory};

    ghost from_gives = { λ error refused. refused ≡ OutOfMemory error };

    fn from(error: AllocError) -> CubeLineRefused {
        CubeLineRefused::OutOfMemory(error)
    }
}

/// Reads the numbers of one cube line or open line, those behind its words: literals whose
/// variables rise, and one 0 behind them. Answers the literals. Takes one walk over the numbers,
/// and memory for the literals.
pub fn read_cube_line(alloc: Global, numbers: &[i32]) -> Result<Vec<i32>, CubeLineRefused>
    ensures literals { IfOk result (λ literals. AreCubeLine numbers.now literals.items) }
    ensures refused { IfErr result (IsNoCubeLine numbers.now) }
{
    let end = numbers.len();
    if end == 0 || numbers[end - 1] != 0 {
        return Err(CubeLineRefused::Bad);
    }
    let literals = &numbers[..end - 1];
    if !rise(literals) || !are_sized(literals) {
        return Err(CubeLineRefused::Bad);
    }
    Ok(literals.to_vec(alloc)?)
}

/// Whether the variables of the numbers rise, from above 0 on.
fn rise(numbers: &[i32]) -> bool
    ensures { result ≡ rises_above 0 numbers.now }
{
    let mut last: u32 = 0;
    for number in numbers {
        if number.unsigned_abs() <= last {
            return false;
        }
        last = number.unsigned_abs();
    }
    true
}

/// Whether no number is too large for a literal: the least one has no negation.
fn are_sized(numbers: &[i32]) -> bool
    ensures { result ≡ list_all (λ l. nat_lt (nat_abs l) (2 ^ 31)) numbers.now }
{
    for number in numbers {
        if *number == i32::MIN {
            return false;
        }
    }
    true
}
