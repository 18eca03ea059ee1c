//! Linked lists in one arena.

use kin_links::Links;
use std::test::Fail;

#[test]
fn a_call_changes_one_list(rt: HostRuntime) -> Result<(), Fail> {
    let mut links: Links<u32> = Links::new(rt.alloc());
    let other = links.new_list()?;
    let list = links.new_list()?;
    let nine = links.push_front(other, 9)?;
    let five = links.push_front(list, 5)?;
    let six = links.link_after(five, 6)?;
    assert_eq!(rt; links.first(list), Some(five));
    assert_eq!(rt; links.next(five), Some(six));
    assert_eq!(rt; links.item(six), 6);
    links.swap_next(five);
    assert_eq!(rt; links.first(list), Some(six));
    assert_eq!(rt; links.prev(five), Some(six));
    assert_eq!(rt; links.unlink(five), 5);
    assert_eq!(rt; links.next(six), None);
    assert_eq!(rt; links.first(other), Some(nine));
    assert_eq!(rt; links.item(nine), 9);
    Ok(())
}
