// The figures of the register: energy, certificate counts and numbers, accounts, device numbers,
// the names of the books and tables, and every limit.
#![tactic(auto)]

mod accounts;
mod devices;
mod energy;
mod limits;
mod names;

pub use accounts::Account;
pub use devices::Device;
pub use energy::{CertificateCount, CertificateNumber, WattHours};
pub use limits::{
    CERTIFICATE_WATT_HOURS, FIRST_YEAR, LAST_DAY, LAST_YEAR, MAX_ACCOUNT_NUMBER,
    MAX_CERTIFICATE_NUMBER, MAX_ENERGY, MAX_FILE_BYTES, MAX_MEMBERS, MAX_TOTAL,
};
pub use names::{BookName, Table};
