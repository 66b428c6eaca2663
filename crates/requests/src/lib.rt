// Requests, and the first reason for which one is turned away.
#![tactic(auto)]

pub mod checks;
pub mod limits;
pub mod one_answer;
pub mod refusal;
pub mod request;

pub use refusal::{LentList, Refusal};
pub use request::{ApartRequest, NameRequest};

#[cfg(test)]
mod tests {
    // Requests that are turned away, by example.
    use crate::checks::table_room;
    use crate::{ApartRequest, LentList, NameRequest, Refusal};

    // The directions 0 0 1000 and 300 0 1000.
    const TWO: [u32; 6] = [65_536, 65_536, 66_536, 65_836, 65_536, 66_536];

    fn naming(stars: &[u32], spots: &[u32], room: usize) -> Result<(), Refusal> {
        NameRequest {
            stars,
            spots,
            error: 0,
            none: 0,
            room,
        }
        .check()
    }

    #[test]
    fn room_for_names(rt: HostRuntime) {
        assert_eq!(rt; naming(&TWO, &TWO, 2), Ok(()));
        assert_eq!(rt;
            naming(&TWO, &TWO, 3),
            Err(Refusal::NamesRoom { length: 3 })
        );
        assert_eq!(rt; naming(&TWO, &[], 0), Ok(()));
    }

    #[test]
    fn first_reason(rt: HostRuntime) {
        assert_eq!(rt;
            naming(&TWO[0..5], &TWO[0..4], 9),
            Err(Refusal::NotThrees {
                list: LentList::Stars,
            })
        );
        assert_eq!(rt;
            naming(&TWO, &TWO[0..4], 9),
            Err(Refusal::NotThrees {
                list: LentList::Spots,
            })
        );
        assert_eq!(rt;
            naming(&[], &[0; 51], 9),
            Err(Refusal::StarCount { stars: 0 })
        );
        assert_eq!(rt;
            naming(&TWO, &[0; 51], 9),
            Err(Refusal::SpotCount { spots: 17 })
        );
    }

    #[test]
    fn room_for_rows(rt: HostRuntime) {
        let request = ApartRequest {
            stars: &TWO,
            error: 1_000_000,
            size: 3,
            room: 7,
        };
        assert_eq!(rt; request.check(), Err(Refusal::RowsRoom { length: 7 }));
    }

    #[test]
    fn room_for_the_table(rt: HostRuntime) {
        assert_eq!(rt; table_room(12, 11), Err(Refusal::TableRoom { needed: 12 }));
        assert_eq!(rt; table_room(12, 12), Ok(()));
    }

    #[test]
    fn numbers_and_places(rt: HostRuntime) {
        assert_eq!(rt; Refusal::RowsRoom { length: 7 }.number(), 10);
        assert_eq!(rt; Refusal::RowsRoom { length: 7 }.place(), 7);
        assert_eq!(rt;
            Refusal::NotThrees {
                list: LentList::Spots,
            }
            .place(),
            1
        );
    }
}
