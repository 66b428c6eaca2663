// Texts of catalogues, pictures and requests, line by line, and the answers to them.
#![tactic(auto)]

pub mod answer;
pub mod check_catalogue;
mod directions;
mod expected;
pub mod fault;
mod line;
pub mod name_pictures;
mod number;
pub mod program;

#[cfg(test)]
mod tests {
    // Lines that are answered, and lines that cannot be read.
    use crate::answer::Answer;
    use crate::check_catalogue::CheckCatalogue;
    use crate::name_pictures::NamePictures;
    use crate::program::Program;
    use requests::Refusal;
    use sky::Spot;
    use std::test::Fail;

    // Whether the program can read none of the lines of a text.
    fn reads_none<P: Program>(program: &mut P, text: &str) -> bool {
        text.lines().all(|line| program.read_line(line).is_err())
    }

    #[test]
    fn a_picture_after_another(rt: HostRuntime) -> Result<(), Fail> {
        let mut program = NamePictures::new(rt.alloc());
        assert!(rt; program.read_line("star 0 0 1000").is_ok());
        assert!(rt; program.read_line("spot 0 0 0").is_ok());
        assert_eq!(rt;
            program.read_line("name")?,
            Some(Answer(Err(Refusal::BadSpot { spot: Spot(0) })))
        );
        assert_eq!(rt; program.read_line("name")?, Some(Answer(Ok(()))));
        Ok(())
    }

    #[test]
    fn lines_that_cannot_be_read(rt: HostRuntime) {
        let mut pictures = NamePictures::new(rt.alloc());
        assert!(rt;
            reads_none(
                &mut pictures,
                "sta 1 2 3\nstar 1 2 x\nstar 1 2 -\nerror -5\nnone\nnone 1 2\nname 1\napart 3",
            )
        );
        let mut catalogue = CheckCatalogue::new(rt.alloc());
        assert!(rt;
            reads_none(
                &mut catalogue,
                "spot 1 2 3\nnone 1\nname\napart\napart three\nerror 1e3\nerror 99999999999999999999x",
            )
        );
    }

    #[test]
    fn what_was_expected(rt: HostRuntime) -> Result<(), Fail> {
        let mut program = CheckCatalogue::new(rt.alloc());
        let fault = program.read_line("spot 1 2 3").err().ok_or("no fault")?;
        assert_eq!(rt;
            fault.to_string(rt.alloc())?.as_str(),
            "expected star, error or apart, found 'spot'"
        );
        Ok(())
    }
}
