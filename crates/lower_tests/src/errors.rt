//! The texts of errors that the program doesn't print.

use hir_lower::LowerError;
use hir_store::error::StoreError;
use std::test::Fail;

#[test]
fn errors_say_why(rt: HostRuntime) -> Result<(), Fail> {
    let texts = format!(in rt.alloc();
        "{} {} {} {} {}",
        LowerError::Memory,
        LowerError::Full,
        LowerError::Failed,
        StoreError::Memory,
        StoreError::Full
    )?;
    assert!(rt; texts.as_str() == "memory full failed memory full");
    Ok(())
}
