use crate::{TripError, read_and_write, write_and_read};
use sheet::{Draft, PartNumber};
use sheet_writing::WriteError;
use std::test::Fail;

const TEXT: [u8; 64] = *b"part,1,20,150\npart,2,20,90\npart,3,30,0\npath,1,3\npath,2,3\nfeed,3\n";

#[test]
fn sheet_comes_back(rt: HostRuntime) -> Result<(), Fail> {
    let heap = rt.alloc();
    let mut draft = Draft::new(heap);
    draft.add(20, 150)?;
    draft.add(20, 90)?;
    draft.add(30, 0)?;
    let sheet = draft.seal();
    let mut buffer = [0u8; 64];
    let mut back = Draft::new(heap);
    let mut list = [7u64; 3];
    let feed = PartNumber::try_from(3)?;
    let found = write_and_read(
        heap,
        &sheet,
        &[5, 6],
        feed,
        &mut buffer,
        &mut back,
        &mut list,
    )?;
    assert_eq!(rt; buffer, TEXT);
    assert_eq!(rt; back.count(), 3);
    assert_eq!(rt; list, [5, 6, 7]);
    assert_eq!(rt; found.path_count, 2);
    assert_eq!(rt; found.feed.number(), 3);
    Ok(())
}

#[test]
fn text_comes_back(rt: HostRuntime) -> Result<(), Fail> {
    let heap = rt.alloc();
    let mut list = [0u64; 2];
    let mut buffer = [0u8; 64];
    let count = read_and_write(heap, &TEXT, Draft::new(heap), &mut list, &mut buffer)?;
    assert_eq!(rt; count, 64);
    assert_eq!(rt; buffer, TEXT);
    assert_eq!(rt; list, [5, 6]);
    let short = read_and_write(heap, &TEXT, Draft::new(heap), &mut list, &mut buffer[..63]);
    assert_eq!(rt;
        short,
        Err(TripError::Writing(WriteError::BufferTooShort(64)))
    );
    Ok(())
}
