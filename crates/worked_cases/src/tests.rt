use rankings::{Exact, KeyRanking, Points, is_ahead_by_keys};
use sheet::Draft;
use states::State;
use std::cmp::Ordering;
use std::test::Fail;

// Two states with keys that are none's: the greater mass is ahead, the fewer points are, and where keys tie the smaller number.
#[test]
fn ahead_by_any_keys(rt: HostRuntime) -> Result<(), Fail> {
    let sheet = Draft::new(rt.alloc()).seal();
    let small = State::new(1);
    let great = State::new(2);
    for (first, second, exact, points) in [
        (5, 3, Ordering::Less, Ordering::Greater),
        (3, 5, Ordering::Greater, Ordering::Less),
        (4, 4, Ordering::Equal, Ordering::Equal),
    ] {
        let masses = (u64::from(first), u64::from(second));
        assert_eq!(rt; Exact.compare_keys(&sheet, masses.0, masses.1), exact);
        assert_eq!(rt; Points.compare_keys(&sheet, first, second), points);
        assert_eq!(rt;
            is_ahead_by_keys(&Exact, &sheet, (small, masses.0), (great, masses.1)),
            exact.is_le()
        );
        assert_eq!(rt;
            is_ahead_by_keys(&Exact, &sheet, (great, masses.0), (small, masses.1)),
            exact.is_lt()
        );
        assert_eq!(rt;
            is_ahead_by_keys(&Points, &sheet, (small, first), (great, second)),
            points.is_le()
        );
        assert_eq!(rt;
            is_ahead_by_keys(&Points, &sheet, (great, first), (small, second)),
            points.is_lt()
        );
    }
    Ok(())
}
