use super::*;

const ORIGIN: u16 = 1;

const NEXT_HOP: u16 = 3;

const COMMUNITIES: u16 = 8;

const LENGTHS: [Row; 3] = [
    Row {
        code: ORIGIN,
        first: 1,
        second: 0x40,
    },
    Row {
        code: NEXT_HOP,
        first: 4,
        second: 0x40,
    },
    Row {
        code: COMMUNITIES,
        first: 0,
        second: 0xc0,
    },
];

fn kind(code: u16) -> (bool, u16) {
    cases!(code; ORIGIN | NEXT_HOP => (true, 0), COMMUNITIES => (false, 0); other => (false, other))
}

#[test]
fn finds_each_row_and_no_other(rt: HostRuntime) {
    let table = Table::new(LENGTHS);
    for row in &LENGTHS {
        assert_eq!(rt; table.find(row.code).copied(), Some(*row));
    }
    for code in [0, 2, 4, 7, 9, 65535] {
        assert!(rt; table.find(code).is_none(), "no row has the code {code}");
    }
}

#[test]
fn an_empty_table_has_no_row(rt: HostRuntime) {
    assert!(rt; Table::new([]).find(0).is_none());
}

#[test]
fn cases_choose_the_arm_of_the_code(rt: HostRuntime) {
    for (code, want) in [
        (1, (true, 0)),
        (3, (true, 0)),
        (8, (false, 0)),
        (9, (false, 9)),
    ] {
        assert_eq!(rt; kind(code), want, "at {code}");
    }
}
