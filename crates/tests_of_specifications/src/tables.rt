//! Files of the tables are read as they should be.
use crate::files::FILES;
use crate::outcome::outcome_of;
use crate::random_files::RANDOM_FILES;
use bes_io::Memory;
use std::alloc::Global;
use std::test::Fail;

/// The number, from 0, of the first row of a table whose file is not read as the row says.
fn misread_row(alloc: Global, table: &[u8]) -> Result<Option<usize>, Memory> {
    for (number, row) in table.split(|byte| *byte == b'@').enumerate() {
        let Some(at) = row.iter().position(|byte| *byte == b'$') else {
            return Ok(Some(number));
        };
        let found = outcome_of(alloc, &row[..at])?;
        if found.bytes() != &row[at + 1..] {
            return Ok(Some(number));
        }
    }
    Ok(None)
}

#[test]
fn a_file_gives_its_specification_or_its_first_fault(rt: HostRuntime) -> Result<(), Fail> {
    let misread = misread_row(rt.alloc(), FILES)?;
    assert!(rt; misread.is_none(), "{misread:?}");
    Ok(())
}

#[test]
fn random_files_are_read_alike_by_two_readers(rt: HostRuntime) -> Result<(), Fail> {
    let misread = misread_row(rt.alloc(), RANDOM_FILES)?;
    assert!(rt; misread.is_none(), "{misread:?}");
    Ok(())
}
