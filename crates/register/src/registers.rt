// A register: its two books and its tables. The day stands apart, since its type says whether orders can be booked.
use crate::tables::Tables;

#[derive(Drop)]
pub struct Register<'a, AccountBook, DeviceBook> {
    pub accounts: AccountBook,
    pub devices: DeviceBook,
    pub tables: Tables<'a>,
}
