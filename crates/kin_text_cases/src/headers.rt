//! Where the ranges of the lines before the first command end.

use crate::outside::are_outside;
use std::test::Fail;

#[test]
fn ranges_of_a_header_end_where_they_should(rt: HostRuntime) -> Result<(), Fail> {
    let rows: [(&[u8], u32); 45] = [
        (b"", 1),
        (b"\n", 2),
        (b"# only words in a comment\n\n", 3),
        (b"size 1", 0),
        (b"size 1\n", 0),
        (b"size 0", 1),
        (b"size 12", 0),
        (b"size 13", 1),
        (b"size 000000000000000000000000000000000000000000000001", 0),
        (b"size 18446744073709551617", 1),
        (b"size +1", 1),
        (b"size -1", 1),
        (b"size 1 1", 1),
        (b"size", 1),
        (b"Size 1", 1),
        (b"size 1\r", 0),
        (b"size 1\r\r", 1),
        (b"size\x0b1", 1),
        (b"size 1#", 0),
        (b"size 1 # \xff\x00 and \r in a comment\n", 0),
        (b"size 1\nsize 1", 2),
        (b"keep order 1 0\nsize 1", 1),
        (b"size 1\nkeep order 16 -16", 0),
        (b"size 1\nkeep order 17 0", 2),
        (b"size 1\nkeep order 0 -17", 2),
        (b"size 1\nkeep order 0 -0", 2),
        (b"size 1\nkeep order 1", 2),
        (b"size 1\nkeep order 1 0 0", 2),
        (b"size 1\nkeep extreme -16 16", 0),
        (b"size 1\nkeep extreme 0 17", 2),
        (b"size 1\nkeep extreme 0 0", 2),
        (b"size 1\nkeep extreme 1", 2),
        (b"size 1\nkeep extreme 1 0 0", 2),
        (b"size 1\njournal on", 0),
        (b"size 1\njournal", 2),
        (b"size 1\njournal on on", 2),
        (b"size 1\njournal On", 2),
        (b"size 1\njournal off\nkeep order 1 0", 0),
        (b"size 1\njournal off\n\njournal off", 4),
        (b"size 1\njournal on\nkeep extreme 1 0\njournal off", 4),
        (b"size 1\njournal off\njournal on", 3),
        (b"size 1\nlive\nkeep extreme 1 0", 3),
        (b"size 1\nnext\njournal on", 3),
        (b"size 1\nhull\nkeep order 1 0", 3),
        (b"size 1\nhull\njournal off", 3),
    ];
    are_outside(&rt, rt.alloc(), &rows)?;
    Ok(())
}

#[test]
fn a_hull_a_closest_pair_and_a_range_are_kept_once(rt: HostRuntime) -> Result<(), Fail> {
    let rows: [(&[u8], u32); 12] = [
        (b"size 1\nkeep hull\nkeep closest\nkeep range", 0),
        (b"size 1\nkeep hull 0", 2),
        (b"size 1\nkeep closest 1 0", 2),
        (b"size 1\nkeep range range", 2),
        (b"size 1\nkeep box", 2),
        (b"size 1\nkeep hull\nkeep hull", 3),
        (b"size 1\nkeep closest\nkeep range\nkeep closest", 4),
        (b"size 1\nkeep range\nkeep range", 3),
        (b"size 1\nclosest\nkeep closest", 3),
        (b"size 1\nbox 0 0 0 0 0", 2),
        (b"size 1\nbox 0 0 0", 2),
        (b"size 1\nclosest 0", 2),
    ];
    are_outside(&rt, rt.alloc(), &rows)?;
    Ok(())
}

#[test]
fn a_farthest_pair_is_kept_once_and_after_a_hull(rt: HostRuntime) -> Result<(), Fail> {
    let rows: [(&[u8], u32); 12] = [
        (b"size 1\nkeep hull\nkeep diameter", 0),
        (
            b"size 1\nkeep hull\nkeep closest\njournal on\nkeep diameter\nfarthest",
            0,
        ),
        (b"size 1\nkeep diameter", 2),
        (b"size 1\nkeep diameter\nkeep hull", 2),
        (b"size 1\nkeep closest\nkeep diameter", 3),
        (b"size 1\nkeep hull\nkeep diameter\nkeep diameter", 4),
        (b"size 1\nkeep hull\nkeep diameter\nkeep hull", 4),
        (b"size 1\nkeep hull\nkeep diameter 0", 3),
        (b"size 1\nkeep hull\nkeep farthest", 3),
        (b"size 1\nkeep hull\nfarthest\nkeep diameter", 4),
        (b"size 1\nfarthest", 0),
        (b"size 1\nfarthest 0", 2),
    ];
    are_outside(&rt, rt.alloc(), &rows)?;
    Ok(())
}

#[test]
fn boxes_are_kept_once_and_are_4096_long_at_most(rt: HostRuntime) -> Result<(), Fail> {
    let rows: [(&[u8], u32); 18] = [
        (b"size 1\nkeep boxes 4096 4096\noverlaps", 0),
        (b"size 1\nkeep boxes 0 -0", 0),
        (b"size 1\nkeep hull\nkeep boxes 01 2\njournal on", 0),
        (b"size 1\nkeep boxes 4097 0", 2),
        (b"size 1\nkeep boxes 0 4097", 2),
        (b"size 1\nkeep boxes -1 0", 2),
        (b"size 1\nkeep boxes 0 -1", 2),
        (b"size 1\nkeep boxes", 2),
        (b"size 1\nkeep boxes 1", 2),
        (b"size 1\nkeep boxes 1 2 3", 2),
        (b"size 1\nkeep boxes 1/2 1", 2),
        (b"size 1\nkeep box 1 2", 2),
        (b"size 1\nkeep overlaps", 2),
        (b"size 1\nkeep boxes 1 2\nkeep boxes 1 2", 3),
        (b"size 1\nkeep boxes 1 2\nkeep range\nkeep boxes 2 1", 4),
        (b"size 1\noverlaps\nkeep boxes 1 2", 3),
        (b"size 1\noverlaps", 0),
        (b"size 1\noverlaps 0", 2),
    ];
    are_outside(&rt, rt.alloc(), &rows)?;
    Ok(())
}

#[test]
fn sixteen_structures_are_kept_and_no_more(rt: HostRuntime) -> Result<(), Fail> {
    let mut bytes = Vec::from_slice(rt.alloc(), b"size 1\n")?;
    for _ in 0..8 {
        bytes.extend_from_slice(b"keep order 1 1\nkeep extreme 1 1\n")?;
    }
    let rows: [(&[u8], u32); 3] = [
        (b"", 0),
        (
            b"keep hull\nkeep closest\nkeep range\nkeep nearest\nkeep diameter\nkeep boxes 1 1\n",
            0,
        ),
        (b"keep extreme 1 1\n", 24),
    ];
    for (more, line) in rows {
        bytes.extend_from_slice(more)?;
        are_outside(&rt, rt.alloc(), &[(&bytes, line)])?;
    }
    Ok(())
}
