//! Examples of lines that are read, and of lines that are not.
use crate::fault::{Fault, ReadError};
use crate::month::{Month, read_month};
use crate::rows::Account;
use std::alloc::Global;
use std::test::Fail;

// The error with which the lines are refused.
fn refusal(heap: Global, lines: &[&str]) -> Result<ReadError, Fail> {
    Ok(read_month(heap, lines).err().ok_or("the lines are read")?)
}

#[test]
fn a_counter_rolls_over(rt: HostRuntime) -> Result<(), Fail> {
    let heap = rt.alloc();
    let lines = ["# a month", "1 999990", "", "2 20", "31 999999"];
    let Month::Advances(entries) = read_month(heap, &lines)? else {
        return Err(Fail::new("these are advances"));
    };
    let account = Account::new(heap, &entries)?;
    assert_eq!(rt; account.rows.len(), 3);
    assert_eq!(rt; account.rows[1].day, 2);
    assert_eq!(rt; account.rows[1].total.0, 10);
    assert!(rt; !account.rows[0].rolled_over() && account.rows[1].rolled_over());
    assert_eq!(rt; account.total.0, 9);
    Ok(())
}

#[test]
fn masses_have_a_heading(rt: HostRuntime) -> Result<(), Fail> {
    let heap = rt.alloc();
    let lines = ["quantity mass", "3 -1000000000000", "4 1000000000000"];
    let Month::Masses(entries) = read_month(heap, &lines)? else {
        return Err(Fail::new("these are masses"));
    };
    assert_eq!(rt; entries.len(), 2);
    assert_eq!(rt; entries[0].amount.0, -1_000_000_000_000);
    assert_eq!(rt; Account::of_masses(heap, &entries)?.total.0, 0);
    Ok(())
}

#[test]
fn the_first_bad_line_is_named(rt: HostRuntime) -> Result<(), Fail> {
    let heap = rt.alloc();
    for (text, number, fault) in [
        ("1 5\n2", 2, Fault::NoSpace),
        ("# x\n32 5", 2, Fault::BadDay),
        ("0 5\nx", 1, Fault::BadDay),
        ("1 1000000", 1, Fault::BadAmount),
        ("1  5", 1, Fault::BadAmount),
        ("7 5\n\n7 6", 3, Fault::NotLater),
        ("1 5\nquantity totaliser", 2, Fault::BadDay),
        ("quantity masses\n1 5", 1, Fault::BadDay),
        ("quantity mass\n1 1000000000001", 2, Fault::BadAmount),
    ] {
        let lines: Vec<&str> = text.lines().collect(heap)?;
        assert_eq!(rt;
            refusal(heap, &lines)?,
            ReadError::Line { number, fault },
            "in {text:?}"
        );
    }
    assert!(rt; read_month(heap, &["quantity totaliser", "1 5"]).is_ok());
    Ok(())
}

#[test]
fn a_bad_line_gets_a_message(rt: HostRuntime) -> Result<(), Fail> {
    let heap = rt.alloc();
    let text = refusal(heap, &["1 5", "two 5"])?.to_string(heap)?;
    assert_eq!(rt; &*text, "line 2: the day is not a number from 1 to 31");
    Ok(())
}
