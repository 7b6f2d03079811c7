// GS1's own worked example: the leading digits 37610425002123456 have the check digit 9.
use figures::Device;

const LEADING_DIGITS: u64 = 37_610_425_002_123_456;

#[test]
fn only_nine_completes_the_worked_example(rt: HostRuntime) {
    for digit in 0..10u64 {
        let passes = Device::new(LEADING_DIGITS * 10 + digit).is_some();
        assert_eq!(rt; passes, digit == 9);
    }
}

#[test]
fn zero_and_nineteen_digits_are_no_device(rt: HostRuntime) {
    assert!(rt; Device::new(0).is_none());
    assert!(rt; Device::new(1_000_000_000_000_000_017).is_none());
}
