//! What words ask for, and words that are refused.

use dsm_command::{Command, WordsErr, read_command};
use std::alloc::{AllocError, Global};
use std::test::Fail;

/// What words ask for, written out; the words are parted by `|`.
fn shown(alloc: Global, line: &str) -> Result<String, AllocError> {
    let mut words = Vec::new(alloc);
    for word in line.split('|') {
        words.push(String::from_str(alloc, word)?)?;
    }
    match read_command(alloc, &words) {
        Ok(command) => format!(in alloc; "{command:?}"),
        Err(WordsErr::Refused) => format!(in alloc; "refused"),
        Err(WordsErr::Memory) => format!(in alloc; "out of memory"),
    }
}

#[test]
fn words_ask_for_commands(rt: HostRuntime) -> Result<(), Fail> {
    const TABLE: &[(&str, &str)] = &[
        (
            "run|a|--trace|b",
            "Run { program: \"a\", schedule: \"b\", trace: true, state: false }",
        ),
        (
            "run|--state|a|b|--trace",
            "Run { program: \"a\", schedule: \"b\", trace: true, state: true }",
        ),
        (
            "run|--|-a|--state",
            "Run { program: \"-a\", schedule: \"--state\", trace: false, state: false }",
        ),
        ("check|--procs=2|-", "Check { program: \"-\", procs: 2 }"),
        ("check||--procs|16", "Check { program: \"\", procs: 16 }"),
        (
            "check|--procs|3|--|--",
            "Check { program: \"--\", procs: 3 }",
        ),
        ("plain|a|b|--", "Plain { program: \"a\", picks: \"b\" }"),
        ("load|0", "Load { seed: 0 }"),
        ("load|--|999999", "Load { seed: 999999 }"),
    ];
    for &(line, command) in TABLE {
        assert_eq!(rt; shown(rt.alloc(), line)?.as_str(), command, "{line}");
    }
    Ok(())
}

#[test]
fn other_words_are_refused(rt: HostRuntime) -> Result<(), Fail> {
    const TABLE: &[&str] = &[
        "",
        "--",
        "help",
        "--help",
        "-h",
        "--trace|run|a|b",
        "Run|a|b",
        "run",
        "run|a",
        "run|a|b|c",
        "run|a|b|--trace|--trace",
        "run|a|b|--trace=",
        "run|a|b|--tra",
        "run|a|b|-t",
        "run|a|-b",
        "run|a|b|--procs=3",
        "check|a|--procs|17",
        "check|a|--procs|1",
        "check|a|--procs|03",
        "check|a|--procs|+3",
        "check|a|--procs|-3",
        "check|a|--procs",
        "check|a|--procs=",
        "check|a|--procs|--",
        "check|--procs|--|3|a",
        "check|a|--procs|3|--procs=3",
        "check|a|--|--procs|3",
        "plain|a|b|--state",
        "load",
        "load|1000000",
        "load|00",
        "load|-5",
        "load|--|-5",
    ];
    for &line in TABLE {
        assert_eq!(rt; shown(rt.alloc(), line)?.as_str(), "refused", "{line}");
    }
    let none = Vec::new(rt.alloc());
    assert!(rt; matches!(read_command(rt.alloc(), &none), Err(WordsErr::Refused)));
    Ok(())
}
