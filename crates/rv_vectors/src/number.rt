//! The numbers of rows.

use anyhow::{Context, Result, ensure};

/// The number that a field of a row has in hexadecimal digits.
pub fn number(digits: Option<&str>) -> Result<u64> {
    let digits = digits.context("a number")?;
    u64::from_str_radix(digits, 16).context("hexadecimal digits")
}

/// The word that a field of a row has in hexadecimal digits.
pub fn word(digits: Option<&str>) -> Result<u32> {
    let number = number(digits)?;
    ensure!(number < 0x1_0000_0000, "no word");
    Ok(number as u32)
}

/// The byte that a field of a row has in hexadecimal digits.
pub fn byte(digits: Option<&str>) -> Result<u8> {
    let number = number(digits)?;
    ensure!(number < 256, "no byte");
    Ok(number as u8)
}

/// The number that a field of a row has in decimal digits.
pub fn decimal(digits: Option<&str>) -> Result<u32> {
    let digits = digits.context("a number")?;
    let number = u64::from_str_radix(digits, 10).context("decimal digits")?;
    ensure!(number < 0x1_0000_0000, "too large a number");
    Ok(number as u32)
}
