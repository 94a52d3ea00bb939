//! Cases of reading and writing.

use super::*;
use std::test::Fail;

#[test]
fn a_heap_file_is_read_and_written_again(rt: HostRuntime) -> Result<(), Fail> {
    let alloc = rt.alloc();
    for text in [
        "",
        "5:\n",
        "5: 42\n9: 1 0 18446744073709551615\n",
        "9223372036854775807: 7\n",
    ] {
        let heap = read_heap(alloc, text.as_bytes())?;
        assert_eq!(rt; write_heap(alloc, &heap)?.as_slice(), text.as_bytes());
    }
    Ok(())
}

#[test]
fn blocks_are_kept_by_their_locations(rt: HostRuntime) -> Result<(), Fail> {
    let heap = read_heap(rt.alloc(), b"5: 42 7\n9:\n")?;
    assert_eq!(rt; heap.get(5), Some([42, 7].as_slice()));
    assert_eq!(rt; heap.get(9).ok_or("a block stands there")?.len(), 0);
    assert_eq!(rt; heap.get(7), None);
    Ok(())
}

#[test]
fn the_first_bad_line_is_named(rt: HostRuntime) {
    for (text, line) in [
        ("5: 1\n5: 2", 2),
        ("5: 42\n5: 1\n", 2),
        ("5: 42\n7: 01\n", 2),
        ("7:\n5:\n", 2),
        ("5: 1\n\n", 2),
        ("\n", 1),
        ("0: 1\n", 1),
        ("05: 1\n", 1),
        ("5: \n", 1),
        ("5:  1\n", 1),
        ("5: 1 \n", 1),
        ("5: 1\r\n", 1),
        ("5:1\n", 1),
        ("5 1\n", 1),
        (": 1\n", 1),
        ("5: +1\n", 1),
        ("5: 18446744073709551616\n", 1),
        ("9223372036854775808: 1\n", 1),
    ] {
        let stop = read_heap(rt.alloc(), text.as_bytes()).err();
        assert_eq!(rt; stop, Some(HeapStop::BadHeap { line }), "at {text}");
    }
}
