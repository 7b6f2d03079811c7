// What a checked operand is, and the check of one operand at its place in an order.
ghost use Rattle.std.specs.Prelude.{◌≡◌, Bool, true, if◌then◌else◌, Some, None, IfOk};
ghost use Rattle.std.specs.Option.{option_map};
ghost use Rattle.order_file.specs.Checks.{refused_at, operand};

use crate::faults::OperandFault;
use crate::orders::AccountOperand;
use figures::{Account, Device, MAX_ENERGY, WattHours};

// The value of one operand, which only a lawful one has. A conversion of the project's own, since
// `TryFrom` between two types of other crates is not for this crate to write.
pub(crate) trait Checked: Sized {
    // The operand as it stands in an order.
    type Plain;

    ghost lawful: { Self.Plain → Bool };

    // What a value says as an operand.
    ghost plain: { Self → Self.Plain };

    fn checked(operand: Self::Plain) -> Option<Self>
        ensures exactly_lawful { option_map plain result ≡ (if lawful operand then Some operand else None) };
}

// The operand's value, or a refusal at its distance from the command byte.
pub(crate) fn check<T: Checked>(plain: T::Plain, distance: usize) -> Result<T, OperandFault>
    ensures refused_at { refused_at result ≡ operand (T.lawful plain) distance None }
    ensures checked { IfOk result (λ value. T.plain value ≡ plain) }
    ensures lawful { IfOk result (λ value. T.lawful (T.plain value) ≡ true) }
{
    T::checked(plain).ok_or(OperandFault { distance })
}

impl Checked for Account {
    ghost use Rattle.order_file.specs.Checked.{plain_account};
    ghost use Rattle.order_file.specs.Checks.{lawful_account};

    type Plain = AccountOperand;

    ghost lawful = { lawful_account };

    ghost plain = { plain_account };

    fn checked(operand: AccountOperand) -> Option<Account> {
        Account::new(operand.first, operand.second, operand.number)
    }
}

impl Checked for Device {
    ghost use Rattle.figures.specs.Gs1.{gs1};

    type Plain = u64;

    ghost lawful = { gs1 };

    ghost plain = { λ device. device.digits };

    fn checked(digits: u64) -> Option<Device> {
        Device::new(digits)
    }
}

impl Checked for WattHours {
    ghost use Rattle.order_file.specs.Operands.{energy_lawful};

    type Plain = u64;

    ghost lawful = { energy_lawful };

    ghost plain = { λ energy. energy.0 };

    fn checked(energy: u64) -> Option<WattHours> {
        (1..=MAX_ENERGY)
            .contains(&energy)
            .then_some(WattHours(energy))
    }
}
