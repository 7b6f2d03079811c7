// The script over all four books. Four of the five keys have the last slot of a table of four for
// their home, so that probes wrap round, and every slot is filled.
use crate::script::run;
use books::Row;
use books_hashed::{AccountsHashed, DevicesHashed};
use books_in_order::{AccountsInOrder, DevicesInOrder};
use figures::{Account, BookName, Device};
use std::test::Fail;

fn account(number: u32) -> Result<Account, Fail> {
    Account::new(b'A', b'A', number).ok_or_else(|| Fail::new("no account"))
}

fn device(digits: u64) -> Result<Device, Fail> {
    Device::new(digits).ok_or_else(|| Fail::new("no device"))
}

fn accounts() -> Result<[Account; 5], Fail> {
    Ok([
        account(7)?,
        account(2)?,
        account(10)?,
        account(3)?,
        account(15)?,
    ])
}

fn devices() -> Result<[Device; 5], Fail> {
    Ok([
        device(48)?,
        device(24)?,
        device(93)?,
        device(17)?,
        device(109)?,
    ])
}

#[test]
fn accounts_in_order(rt: HostRuntime) -> Result<(), Fail> {
    let mut slots = [Row::blank(account(999_999)?); 4];
    let mut book = AccountsInOrder::new(&mut slots);
    run(&rt, &mut book, BookName::Accounts, accounts()?);
    Ok(())
}

#[test]
fn accounts_hashed(rt: HostRuntime) -> Result<(), Fail> {
    let mut slots = [Some(Row::blank(account(7)?)); 4];
    let mut book = AccountsHashed::new(&mut slots);
    run(&rt, &mut book, BookName::Accounts, accounts()?);
    Ok(())
}

#[test]
fn devices_in_order(rt: HostRuntime) -> Result<(), Fail> {
    let mut slots = [Row::blank(0); 4];
    let mut book = DevicesInOrder::new(&mut slots);
    run(&rt, &mut book, BookName::Devices, devices()?);
    Ok(())
}

#[test]
fn devices_hashed(rt: HostRuntime) -> Result<(), Fail> {
    let mut slots = [None; 4];
    let mut book = DevicesHashed::new(&mut slots);
    run(&rt, &mut book, BookName::Devices, devices()?);
    Ok(())
}
