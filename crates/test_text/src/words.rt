use anyhow::Result;
use st_words::{RunMode, Words, WordsFault, read_words};
use std::alloc::Global;

fn told(alloc: Global, words: &str) -> Result<Result<Words, WordsFault>> {
    let mut list = Vec::new(alloc);
    for word in words.split_whitespace() {
        list.push(String::from_str(alloc, word)?)?;
    }
    Ok(read_words(alloc, &list))
}

#[test]
fn words_of_the_command_have_their_meaning(rt: HostRuntime) -> Result<()> {
    for (words, mode, lanes, trace, number) in [
        ("run", RunMode::Run, 8, false, 0),
        ("check", RunMode::Check, 8, false, 0),
        ("gen", RunMode::Gen, 8, false, 0),
        ("run --lanes 3", RunMode::Run, 3, false, 0),
        ("run --lanes=3", RunMode::Run, 3, false, 0),
        ("--lanes 1 run", RunMode::Run, 1, false, 0),
        ("--trace run", RunMode::Run, 8, true, 0),
        ("gen --number 7", RunMode::Gen, 8, false, 7),
        (
            "gen --number=18446744073709551615",
            RunMode::Gen,
            8,
            false,
            u64::MAX,
        ),
        (
            "--number 7 --trace --lanes 2 check",
            RunMode::Check,
            2,
            true,
            7,
        ),
        ("run --lanes +3", RunMode::Run, 3, false, 0),
        ("-- run", RunMode::Run, 8, false, 0),
        ("--trace -- gen", RunMode::Gen, 8, true, 0),
        ("run --", RunMode::Run, 8, false, 0),
    ] {
        let want = Words {
            mode,
            lanes,
            trace,
            recover: false,
            number,
        };
        assert_eq!(rt; told(rt.alloc(), words)?, Ok(want), "at {words:?}");
    }
    Ok(())
}

#[test]
fn other_words_are_usage(rt: HostRuntime) -> Result<()> {
    for words in [
        "",
        "walk",
        "Run",
        "run run",
        "run check",
        "--trace",
        "run --lanes",
        "run --lanes 0",
        "run --lanes 9",
        "run --lanes 257",
        "run --lanes -1",
        "run --lanes x",
        "run --lanes=",
        "run --lanes 2 --lanes 2",
        "run --trace --trace",
        "run --trace=true",
        "run -- --trace",
        "check --number x",
        "run --number 18446744073709551616",
        "gen --number 1 --number 1",
        "run --recover",
        "run --colour",
        "run -t",
        "run -h",
        "run --help",
        "help",
        "run --version",
        "run -V",
    ] {
        assert_eq!(rt;
            told(rt.alloc(), words)?,
            Err(WordsFault::Usage),
            "at {words:?}"
        );
    }
    Ok(())
}
