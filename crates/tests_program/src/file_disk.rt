//! The disk over a file of the system.
use cases_player::FileDisk;
use disk_model::Disk;
use prima_base::Failed;
use std::fs;
use std::fs::{File, OpenOptions};
use std::test::Fail;

#[test]
fn a_disk_over_a_file(rt: HostRuntime) -> Result<(), Fail> {
    let mut disk = FileDisk::open(&rt, "disk.bytes")?;
    assert!(rt; disk.len() == Ok(0));
    assert!(rt; disk.write_at(0, b"PRIMA") == Ok(()));
    assert!(rt; disk.write_at(5, b"..file") == Ok(()));
    assert!(rt; disk.write_at(5, b"--") == Ok(()));
    assert!(rt; disk.sync() == Ok(()));
    drop(disk);
    let bytes = fs::read(&rt, "disk.bytes")?;
    assert!(rt; bytes.as_slice() == b"PRIMA--file".as_slice());
    // The file is opened as it is, and read anywhere.
    let mut again = FileDisk::open(&rt, "disk.bytes")?;
    let mut buffer = [0u8; 4];
    assert!(rt; again.len() == Ok(11));
    assert!(rt; again.read_at(7, &mut buffer) == Ok(()));
    assert!(rt; buffer == *b"file");
    // Cut from outside, it fails a read past its end, and no other.
    OpenOptions::new()
        .write(true)
        .open(&rt, "disk.bytes")?
        .set_len(9)?;
    assert!(rt; again.len() == Ok(9));
    assert!(rt; again.read_at(7, &mut buffer) == Err(Failed));
    assert!(rt; again.read_at(5, &mut buffer) == Ok(()));
    assert!(rt; buffer == *b"--fi");
    // A folder is no file that can be opened.
    assert!(rt; FileDisk::open(&rt, ".").is_err());
    Ok(())
}
