/// A row: what is asked, and the answer that came from elsewhere. Between the two stands ` => `, and after ` ; ` a note for
/// people.
#[derive(Clone, Copy)]
pub struct Row<'a> {
    pub question: &'a str,
    pub answer: &'a str,
}

impl<'a> Row<'a> {
    /// The row of a line; None where the line is empty or begins with `#`. A line without ` =>` is a row that no answer fits.
    pub fn of(line: &'a str) -> Option<Row<'a>> {
        if line.is_empty() || line.starts_with('#') {
            return None;
        }
        let (question, rest) = match line.rsplit_once(" =>") {
            Some((question, rest)) => (question, rest),
            None => (line, "a row without an answer"),
        };
        let answer = match rest.split_once(" ; ") {
            Some((answer, _)) => answer,
            None => rest,
        };
        Some(Row {
            question: question.trim(),
            answer: answer.trim(),
        })
    }
}
