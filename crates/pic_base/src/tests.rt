use super::*;
use std::test::Fail;

#[test]
fn texts(rt: HostRuntime) -> Result<(), Fail> {
    let table = [
        (Outcome::Returned(0), "returned 0"),
        (Outcome::Returned(4294967295), "returned 4294967295"),
        (Outcome::Cancelled(9), "cancelled 9"),
    ];
    for (outcome, text) in table {
        assert_eq!(rt; outcome.to_string(rt.alloc())?.as_str(), text);
    }
    assert_eq!(rt; Memory.to_string(rt.alloc())?.as_str(), "out of memory");
    Ok(())
}
