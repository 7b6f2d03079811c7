// Why an order comes back before anything is booked, with the refusal's number and value.
ghost use Rattle.std.specs.Prelude.{◌≡◌};
ghost use Rattle.order_file.specs.Faults.{read_number, operand_number};

// The reader's refusals. `place` is where the order's command byte stands or should stand.
#[derive(Clone, Copy, PartialEq, Eq, Debug)]
pub enum ReadFault {
    UnknownCommand { place: usize },
    CutShort { place: usize },
}

// An operand outside its rule. `distance` is counted from the command byte.
#[derive(Clone, Copy, PartialEq, Eq, Debug)]
pub struct OperandFault {
    pub distance: usize,
}

// The numbers are methods and no `From`: `u8::from(fault)` would not say what of the fault it is.
impl ReadFault {
    pub fn number(&self) -> u8
        ensures number { result ≡ read_number self.now }
    {
        match *self {
            ReadFault::UnknownCommand { .. } => 1,
            ReadFault::CutShort { .. } => 2,
        }
    }
}

impl OperandFault {
    pub fn number(&self) -> u8
        ensures number { result ≡ operand_number self.now }
    {
        3
    }
}
