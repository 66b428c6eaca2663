// Stars, spots and directions, and the number of a pair of directions.
#![tactic(auto)]

mod coordinate;
mod cross;
pub mod direction;
pub mod index;
pub mod lent;
pub mod pair;
mod square;
pub mod stars;
pub mod theorems;

pub use direction::Direction;
pub use index::{Spot, Star};
pub use pair::{pair_number, star_pair_number};
pub use stars::{LentStars, Stars};

#[cfg(test)]
mod tests {
    // The numbers of the pairs of eight stars.
    use crate::{LentStars, Star, star_pair_number};

    // 0 0 1000, 300 0 1000, 0 500 1000, -400 300 1000, 200 -600 1000, -700 -100 1000, 600 650 1000, -150 -350 900
    const EIGHT: [u32; 24] = [
        65_536, 65_536, 66_536, 65_836, 65_536, 66_536, 65_536, 66_036, 66_536, 65_136, 65_836,
        66_536, 65_736, 64_936, 66_536, 64_836, 65_436, 66_536, 66_136, 66_186, 66_536, 65_386,
        65_186, 66_436,
    ];

    fn number(s: usize, t: usize) -> Option<u32> {
        star_pair_number(&LentStars(&EIGHT), Star(s), Star(t))
    }

    #[test]
    fn eight_stars(rt: HostRuntime) {
        assert_eq!(rt; number(0, 1), Some(1_385_274));
        assert_eq!(rt; number(0, 2), Some(3_355_443));
        assert_eq!(rt; number(0, 3), Some(3_355_443));
        assert_eq!(rt; number(0, 4), Some(4_793_490));
        assert_eq!(rt; number(0, 5), Some(5_592_405));
        assert_eq!(rt; number(0, 6), Some(7_365_033));
        assert_eq!(rt; number(0, 7), Some(2_547_325));
        assert_eq!(rt; number(2, 3), Some(2_576_980));
        assert_eq!(rt; number(6, 5), Some(15_112_985));
        assert_eq!(rt; number(0, 8), None);
    }
}
