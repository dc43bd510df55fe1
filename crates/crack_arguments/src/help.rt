//! The text of a help after the options: an example, the statements or the form of a record, and the refusals. No
//! line has more than 80 columns.

use crack_row::{GREATEST_KEY, GREATEST_PAYLOAD, LEAST_PAYLOAD};

/// The texts of `csv` and of the splits have the greatest key.
const _: () = prove!(GREATEST_KEY == 18446744073709551615);

/// The text of `csv` has the least and the greatest payload.
const _: () = prove!(
    LEAST_PAYLOAD == -9223372036854775808 && GREATEST_PAYLOAD == 9223372036854775807
);

/// Appends the numbers and meanings of the refusals to a text.
macro_rules! with_refusals {
    ($($before:expr),+) => {
        concat!(
            $($before,)+
            "\n\nRefusals, written as `refused N`; one that ends a run gives exit status 1:\n",
            "   1  not a statement         12  more than 63 splits\n",
            "   2  not a range             13  not 1 to 64 workers\n",
            "   4  another partition's key 14  a limit is out of range\n",
            "   5  no such partition       15  workers are missing at the end\n",
            "   6  the history is full     16  receipts and histories disagree\n",
            "   8  memory ran out          17  reading or listening failed\n",
            "   9  no cell is free         18  writing failed\n",
            "  10  its life is over        19  not a CSV record: its number\n",
            "  11  splits that don't rise  20  too many clients: their number"
        )
    };
}

/// An example, the statements and the refusals.
macro_rules! with_statements {
    ($($example:expr),+) => {
        with_refusals!(
            "Example:\n",
            $($example,)+
            "\n\nStatements, one per line, and their replies:\n",
            "  insert KEY PAYLOAD          row P.N, the row's number\n",
            "  delete P.N                  gone KEY PAYLOAD, or none\n",
            "  update P.N KEY PAYLOAD      changed, or none\n",
            "  count LOW HIGH              count N: rows with keys from LOW to below HIGH\n",
            "  sum LOW HIGH                sum N: their payloads\n",
            "  select LOW HIGH             rows N, and N lines P.N KEY PAYLOAD\n",
            "  layout P                    where the rows of partition P are\n",
            "  checkpoint P                folded N: N entries are removed, its rows stay\n",
            "  policy NAME                 policy NAME: complete, gradual, ripple or auto\n",
            "  quit, ping, stats [P]       bye, pong, the numbers of all or of partition P"
        )
    };
}

/// The text after the program's options.
pub const OF_PROGRAM: &str = with_statements!(
    "  printf 'insert 30 3\\ninsert 10 1\\ncount 0 20\\n' | crackd script"
);

/// The text after the options of `script`.
pub const OF_SCRIPT: &str = with_statements!(
    "  printf 'insert 30 3\\ninsert 150 1\\nsum 0 200\\n' | crackd script 100"
);

/// The text after the options of `batch`.
pub const OF_BATCH: &str = with_statements!(
    "  printf '0 insert 30 3\\n1 count 0 50\\n' | crackd batch --workers 2",
    "\n  (the number in front of a statement is its worker's)"
);

/// The text after the options of `serve`.
pub const OF_SERVE: &str = with_statements!(
    "  crackd serve --port 4000 --sessions 1 & python3 examples/client.py 4000"
);

/// The text after the options of `csv`.
pub const OF_CSV: &str = with_refusals!(
    "Example:\n",
    "  printf 'key,payload\\n30,3\\n10,1\\n' | crackd csv\n\n",
    "A record is a key from 0 to 18446744073709551615, a comma, and a payload from\n",
    "-9223372036854775808 to 9223372036854775807; a first record `key,payload` is a\n",
    "header."
);
