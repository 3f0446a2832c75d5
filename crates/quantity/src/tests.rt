//! Examples at the edges of each quantity.
use crate::Quantity;
use crate::components::Components;
use crate::mass::Mass;
use crate::sheet::SheetQuantity;
use crate::sums::{total, total_mass};
use crate::totaliser::Totaliser;
use std::test::Fail;

const SAMPLE: Components = Components {
    first: Mass(1),
    second: Mass(-2),
    third: Mass(i64::MIN),
    fourth: Mass(4),
};

#[test]
fn totalisers_roll_over(rt: HostRuntime) {
    assert_eq!(rt; Totaliser(999_999).plus(Totaliser(1)).0, 0);
    assert_eq!(rt; Totaliser(999_990).plus(Totaliser(20)).0, 10);
    assert_eq!(rt; Totaliser(0).negative().0, 0);
    assert_eq!(rt; Totaliser(1).negative().0, 999_999);
    assert!(rt; Totaliser(999_999).rolls_over(Totaliser(1)));
    assert!(rt; !Totaliser(999_998).rolls_over(Totaliser(1)));
}

#[test]
fn numbers_past_six_digits_are_taken_as_zero(rt: HostRuntime) {
    let past = Totaliser(1_000_007);
    assert_eq!(rt; past.advance(), 0);
    assert_eq!(rt; past.plus(Totaliser(3)).0, 3);
    assert_eq!(rt; past.negative().0, 0);
    assert!(rt; past.same(Totaliser(0)) && !past.same(Totaliser(7)));
    assert_eq!(rt; past.to_bytes(), Some([0; 8]));
}

#[test]
fn masses_wrap(rt: HostRuntime) {
    assert_eq!(rt; Mass(i64::MAX).plus(Mass(1)).0, i64::MIN);
    assert_eq!(rt; Mass(i64::MIN).negative().0, i64::MIN);
    assert_eq!(rt; Mass(-5).negative().0, 5);
    assert!(rt; Mass(-1).same(Mass(-1)) && !Mass(-1).same(Mass(1)));
}

#[test]
fn mass_bytes_stop_at_the_bounds(rt: HostRuntime) -> Result<(), Fail> {
    for grams in [0, 1_000_000_000_000, -1_000_000_000_000] {
        assert!(rt; Mass::fits(i64::to_le_bytes(grams)));
        let bytes = Mass(grams).to_bytes().ok_or("outside the bounds")?;
        assert_eq!(rt; Mass::from_bytes(bytes), Some(Mass(grams)));
    }
    for grams in [1_000_000_000_001, -1_000_000_000_001, i64::MIN] {
        assert!(rt; !Mass::fits(i64::to_le_bytes(grams)));
        assert!(rt; Mass(grams).to_bytes().is_none());
    }
    Ok(())
}

#[test]
fn totaliser_bytes_stop_at_the_bounds(rt: HostRuntime) {
    assert!(rt; Totaliser::fits(999_999u64.to_le_bytes()));
    assert_eq!(rt;
        Totaliser(999_999).to_bytes(),
        Some([63, 66, 15, 0, 0, 0, 0, 0])
    );
    for number in [1_000_000u64, 1_000_007, 4_294_967_296, u64::MAX] {
        assert!(rt; Totaliser::from_bytes(number.to_le_bytes()).is_none());
    }
}

#[test]
fn one_total_serves_all(rt: HostRuntime) {
    assert_eq!(rt;
        total(&[Totaliser(999_990), Totaliser(20), Totaliser(1_000_007)]).0,
        10
    );
    assert_eq!(rt; total(&[Mass(i64::MAX), Mass(5), Mass(-7)]).0, i64::MAX - 2);
    assert_eq!(rt; total_mass(&[Mass(100), Mass(-90)]).0, 10);
    let sum = total(&[SAMPLE, SAMPLE]);
    assert_eq!(rt; sum.fourth.0, 8);
    assert!(rt; sum.third.same(Mass::zero()));
    let none: [Components; 0] = [];
    assert!(rt; total(&none).same(Components::zero()));
    assert!(rt; !Components::nonzero().same(Components::zero()));
}

#[test]
fn amounts_are_written_in_decimal(rt: HostRuntime) -> Result<(), Fail> {
    let heap = rt.alloc();
    let past = Totaliser(1_000_007);
    let text = format!(in heap; "{SAMPLE}, {past}")?;
    assert_eq!(rt; &*text, "1 -2 -9223372036854775808 4, 0");
    Ok(())
}
