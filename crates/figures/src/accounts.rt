// Accounts: two capital letters and a number.
ghost use Rattle.std.specs.Prelude.{◌≡◌, if◌then◌else◌, Some, None};
ghost use Rattle.figures.specs.Accounts.{account_lawful, account_of, account_order, TotalOrder};

use crate::limits::MAX_ACCOUNT_NUMBER;
use std::cmp::Ordering;

// Made by `Account::new` alone, so the letters are capitals and the number is within its limits.
// Accounts are ordered by their letters, then by their number: the order of the fields.
#[derive(Clone, Copy, PartialEq, Eq, PartialOrd, Ord, Debug)]
pub struct Account {
    first: u8,
    second: u8,
    number: u32,
}

impl Account {
    // The account of these letters and this number, if they are lawful.
    // An Option, since there is one reason to refuse: a TryFrom would add an error type that tells nothing.
    pub fn new(first: u8, second: u8, number: u32) -> Option<Account>
        ensures checked { result ≡ (if account_lawful first second number then Some (account_of first second number) else None) }
    {
        let lawful = first.is_ascii_uppercase()
            && second.is_ascii_uppercase()
            && (1..=MAX_ACCOUNT_NUMBER).contains(&number);
        lawful.then_some(Account {
            first,
            second,
            number,
        })
    }

    pub fn letters(&self) -> (u8, u8)
        ensures letters { result ≡ (self.now.first, self.now.second) }
    {
        (self.first, self.second)
    }

    pub fn number(&self) -> u32
        ensures number { result ≡ self.now.number }
    {
        self.number
    }

    // The order of accounts. It is total: of any two accounts exactly one of less, equal
    // and greater holds, equal only of the same account, and less is transitive.
    #[tactic(auto, using(crate::proofs::Derived::account_cmp, crate::proofs::Orders::account_order_total))]
    pub fn compare(&self, other: &Account) -> Ordering
        ensures answer { result ≡ account_order self.now other.now }
        ensures total { TotalOrder account_order }
    {
        self.cmp(other)
    }
}
