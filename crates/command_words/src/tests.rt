//! The words that make a command and those that make none, word for word.
use crate::{Command, Words, WordsFault, read_words};
use std::alloc::Global;
use std::test::Fail;

/// The command that these words make.
fn command_of(alloc: Global, texts: &[&str]) -> Result<Option<Command>, Fail> {
    let mut words = Words::make(alloc);
    for text in texts {
        words.push(text)?;
    }
    match read_words(alloc, &words) {
        Ok(command) => Ok(Some(command)),
        Err(WordsFault::Refused) => Ok(None),
        Err(fault) => Err(Fail::from(fault)),
    }
}

fn drill(size: u32, workers: u32) -> Option<Command> {
    Some(Command::Drill { size, workers })
}

fn enumerate(workers: u32, budget: Option<u64>) -> Option<Command> {
    Some(Command::Enumerate { workers, budget })
}

#[test]
fn a_number_stands_behind_its_option_or_in_the_same_word(rt: HostRuntime) -> Result<(), Fail> {
    let rows: [(&[&str], Option<Command>); 14] = [
        (&["check"], Some(Command::Check)),
        (&["drill", "--size", "4"], drill(4, 1)),
        (&["drill", "--size=48"], drill(48, 1)),
        (&["drill", "--workers", "3", "--size", "01"], drill(1, 3)),
        (&["drill", "--size=24", "--workers=16"], drill(24, 16)),
        (&["enumerate"], enumerate(1, None)),
        (&["enumerate", "--workers", "4"], enumerate(4, None)),
        (&["enumerate", "--workers=02"], enumerate(2, None)),
        (&["enumerate", "--budget", "1"], enumerate(1, Some(1))),
        (
            &["enumerate", "--budget=000000000000000000000000007"],
            enumerate(1, Some(7)),
        ),
        (
            &["enumerate", "--workers=1", "--budget=9"],
            enumerate(1, Some(9)),
        ),
        (
            &["enumerate", "--budget", "9", "--workers", "16"],
            enumerate(16, Some(9)),
        ),
        (
            &["enumerate", "--budget=9", "--workers", "16"],
            enumerate(16, Some(9)),
        ),
        (
            &[
                "enumerate",
                "--budget",
                "4611686018427387904",
                "--workers",
                "16",
            ],
            enumerate(16, Some(1 << 62)),
        ),
    ];
    for (texts, command) in rows {
        assert!(rt; command_of(rt.alloc(), texts)? == command, "{texts:?}");
    }
    Ok(())
}

#[test]
fn other_words_make_no_command(rt: HostRuntime) -> Result<(), Fail> {
    let rows: [&[&str]; 54] = [
        &["drill"],
        &["drill", "4"],
        &["drill", "--size"],
        &["drill", "--size", "0"],
        &["drill", "--size", "49"],
        &["drill", "--size=4", "--size=4"],
        &["drill", "--workers", "4"],
        &["drill", "--size=4", "--budget", "3"],
        &["--size=4", "drill"],
        &[],
        &[""],
        &["list"],
        &["check", ""],
        &["check", "--workers=1"],
        &["check", "check"],
        &["checks"],
        &["Enumerate"],
        &["enumerate "],
        &["enumerate", "enumerate"],
        &["enumerate", ""],
        &["enumerate", "5"],
        &["enumerate", "-"],
        &["enumerate", "--"],
        &["enumerate", "--", "--budget=1"],
        &["enumerate", "--help"],
        &["enumerate", "-h"],
        &["--help"],
        &["enumerate", "--version"],
        &["enumerate", "--size", "4"],
        &["--workers", "2", "enumerate"],
        &["enumerate", "--workers"],
        &["enumerate", "--workers="],
        &["enumerate", "--workers", ""],
        &["enumerate", "--workers=", "4"],
        &["enumerate", "--workers", "0"],
        &["enumerate", "--workers", "17"],
        &["enumerate", "--workers", "-1"],
        &["enumerate", "--workers", "+3"],
        &["enumerate", "--workers=+3"],
        &["enumerate", "--workers==4"],
        &["enumerate", "--workers", "4_0"],
        &["enumerate", "--workers", "0x4"],
        &["enumerate", "--workers", "4.0"],
        &["enumerate", "--workers", "٤"],
        &["enumerate", "--workers", "4", "--workers", "4"],
        &["enumerate", "--workers", "4", "--workers=5"],
        &["enumerate", "--work", "4"],
        &["enumerate", "-w4"],
        &["enumerate", "--budget", "0"],
        &["enumerate", "--budget", "4611686018427387905"],
        &["enumerate", "--budget", "18446744073709551617"],
        &["enumerate", "--budget", "99999999999999999999999999999999"],
        &["enumerate", "--budget", "--workers", "4"],
        &["enumerate", "--budget=5", "--budget=5"],
    ];
    for texts in rows {
        assert!(rt; command_of(rt.alloc(), texts)?.is_none(), "{texts:?}");
    }
    Ok(())
}
