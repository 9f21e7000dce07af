use crate::{ListRefusal, Target, Upset, read_list};
use srmt_base::Side;
use std::rt::HostRuntime;
use std::test::Fail;

/// The text of two upsets, of cells of one object.
const TWO: &[u8] = b"lead:15:cell:65536:9,lead:19:cell:65537:0";

const FIRST: Upset = Upset {
    side: Side::Lead,
    step: 15,
    target: Target::Cell(65536),
    value: 9,
};

const SECOND: Upset = Upset {
    side: Side::Lead,
    step: 19,
    target: Target::Cell(65537),
    value: 0,
};

const OF_REGISTER: Upset = Upset {
    side: Side::Trail,
    step: 6,
    target: Target::Register(1, 0),
    value: 90,
};

/// Texts of no list: a step of 0, a leading zero, a value of 2^44, no upset, one side behind the other, a step that
/// falls, a comma at the end, a sign, and a depth of 2,001.
const BAD: [&[u8]; 9] = [
    b"lead:0:1:0:1",
    b"lead:01:1:0:1",
    b"lead:1:1:0:17592186044416",
    b"",
    b"lead:3:1:0:1,trail:4:1:0:1",
    b"lead:4:1:0:1,lead:3:1:0:1",
    b"trail:6:1:0:90,",
    b"trail:+6:1:0:90",
    b"trail:6:2001:0:90",
];

#[test]
fn lists_are_read(rt: HostRuntime) -> Result<(), Fail> {
    let two = read_list(rt.alloc(), TWO);
    assert!(&rt; two.is_ok_and(|list| list.as_slice() == [FIRST, SECOND].as_slice()));
    let one = read_list(rt.alloc(), b"trail:6:1:0:90");
    assert!(&rt; one.is_ok_and(|list| list.as_slice() == [OF_REGISTER].as_slice()));
    for text in BAD {
        let refused = read_list(rt.alloc(), text);
        assert!(&rt; refused.is_err_and(|refusal| refusal == ListRefusal::Bad));
    }
    Ok(())
}
