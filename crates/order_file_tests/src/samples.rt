// One order of each kind, a line each: account AA1; device 17; day 32; device 17 declares for AA1, days 0 to 30,
// 2,500,000 Wh; AA1 offers 2 to 3 to AA2; AA2 accepts offer 1; AA1 recalls offer 1; AA2 cancels 2 to 3.
pub const EVERY_KIND: [u8; 152] = *b"\
    AAA\0\0\0\x01\
    P\0\0\0\0\0\0\0\x11\
    D\0\0\0\x20\
    I\0\0\0\0\0\0\0\x11AA\0\0\0\x01\0\0\0\0\0\0\0\x1E\0\0\0\0\0\x26\x25\xA0\
    OAA\0\0\0\x01AA\0\0\0\x02\0\0\0\0\0\0\0\x02\0\0\0\0\0\0\0\x03\
    YAA\0\0\0\x02\0\0\0\x01\
    RAA\0\0\0\x01\0\0\0\x01\
    CAA\0\0\0\x02\0\0\0\0\0\0\0\x02\0\0\0\0\0\0\0\x03\x07\xD0MILL STREET BAKERY      ";

// Where each of them ends.
pub const ENDS: [usize; 8] = [7, 16, 21, 52, 81, 92, 103, 152];
