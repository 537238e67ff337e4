//! Picks over an entry of another kind than a port.
use fabric::{Ranked, pick};

// A quote for some goods: the price, whether they are in stock, and who makes them.
#[derive(Clone, Copy, PartialEq, Eq, Debug)]
struct Quote {
    price: u32,
    stocked: bool,
    maker: u8,
}

impl Ranked for Quote {
    ghost eligible = { λ q. q.stocked };

    ghost rank = { λ q. q.price };

    fn eligible(&self) -> bool {
        self.stocked
    }

    fn rank(&self) -> u32 {
        self.price
    }
}

fn at_price(price: u32, stocked: bool, maker: u8) -> Quote {
    Quote {
        price,
        stocked,
        maker,
    }
}

#[test]
fn picks_the_cheapest_in_stock(rt: HostRuntime) {
    let quotes = [
        at_price(5, true, 0),
        at_price(1, false, 1),
        at_price(3, true, 2),
        at_price(4, true, 3),
    ];
    assert_eq!(rt; pick(&quotes), Some(at_price(3, true, 2)));
}

#[test]
fn picks_the_earliest_on_a_tie(rt: HostRuntime) {
    let quotes = [
        at_price(7, true, 0),
        at_price(2, true, 1),
        at_price(2, true, 2),
        at_price(7, true, 3),
    ];
    assert_eq!(rt; pick(&quotes), Some(at_price(2, true, 1)));
}

#[test]
fn picks_none_where_none_is_eligible(rt: HostRuntime) {
    assert_eq!(rt; pick(&[at_price(1, false, 0), at_price(2, false, 1)]), None);
    assert_eq!(rt; pick::<Quote>(&[]), None);
}
