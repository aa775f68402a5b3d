// What README shows: the first character of page 100's row 10.
#![tactic(auto)]

use grid::COLUMNS;
use page::{FRESH, RECORD_LENGTH};
use receiver::{Closing, Receiver, Selection, When};

// The first cell of row 10.
const PLACE: usize = 10 * COLUMNS;

// The character in a record, where it was sent this time; elsewhere 0.
fn sent_there(record: &[u8]) -> u8 {
    match page::read_record(record) {
        Ok(page) if page.cells.marks[PLACE] == FRESH => page.cells.characters[PLACE],
        _ => 0,
    }
}

// The character, where the lines close the page clean and it was sent this time; elsewhere 0.
pub fn row_10(lines: &[u8]) -> u8 {
    let selection = Selection {
        magazine: 1,
        tens: 0,
        units: 0,
        when: When::Any,
    };
    let Ok(receiver) = Receiver::new(selection) else {
        return 0;
    };
    let mut record = [0u8; RECORD_LENGTH];
    let recorded = receiver::take_recording(receiver, lines, &mut record);
    match recorded.answer {
        // Nothing closed; `recorded.receiver` goes on with the next lines.
        None => 0,
        Some(Ok(taken)) => match taken.closing {
            Some(Closing::Clean) => sent_there(&record),
            Some(Closing::Doubt) => 0,
            None => 0,
        },
        // Refused: 18, 12, 10, and 11, which leaves a gap in an open page.
        Some(Err(_)) => 0,
    }
}
