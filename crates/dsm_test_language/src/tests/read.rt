//! What texts are refused for that have tokens but spell no program.

use dsm_parse::parse;
use dsm_syntax::lex;
use std::alloc::Global;
use std::process::Abort;
use std::test::Fail;

/// What a program is refused for, or `accepted`.
pub fn refusal(alloc: Global, text: &str) -> Result<String, Fail> {
    let tokens = lex(alloc, text.as_bytes())?;
    match parse(alloc, &tokens) {
        Ok(_) => Ok(String::from_str(alloc, "accepted")?),
        Err(refused) => Ok(format!(in alloc; "{refused:?}")?),
    }
}

/// Each text is refused for what stands beside it.
pub fn refused(rt: &impl Abort, alloc: Global, table: &[(&str, &str)]) -> Result<(), Fail> {
    for (text, wanted) in table {
        assert_eq!(rt; refusal(alloc, text)?.as_str(), *wanted, "{text}");
    }
    Ok(())
}
