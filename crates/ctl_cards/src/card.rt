//! The columns of a statement's cards.
ghost use Rattle.std.specs.Prelude.{◌≡◌, ◌+◌, ◌<◌, ◌≤◌, length, Result, IfOk, MatchResult, slice_range};
ghost use Rattle.std.specs.List.{list_all, prefix_len};
ghost use Rattle.ctl_cards.specs.Cards.{is_blank, is_filled, run, after_run, past_blanks, operation_on, operand_on, continuation_on, is_continued, has_margin};

const BLANK: u8 = 0x40;

pub type Card = [u8; 80];

/// How many blanks stand at the front.
fn blanks(text: &[u8]) -> usize
    ensures { result ≡ prefix_len is_blank text.now }
{
    text.iter().take_while(|b| **b == BLANK).count()
}

/// How many characters stand before the first blank.
fn run_length(text: &[u8]) -> usize
    ensures { result ≡ prefix_len is_filled text.now }
{
    text.iter().take_while(|b| **b != BLANK).count()
}

fn past_blanks(text: &[u8]) -> &[u8]
    ensures { result.now ≡ past_blanks text.now }
{
    &text[blanks(text)..]
}

fn run(text: &[u8]) -> &[u8]
    ensures { result.now ≡ run text.now }
{
    &text[..run_length(text)]
}

fn after_run(text: &[u8]) -> &[u8]
    ensures { result.now ≡ after_run text.now }
{
    &text[run_length(text)..]
}

/// The operation: the first run of characters in columns 2 to 71.
pub fn operation_on(card: &Card) -> &[u8]
    ensures { result.now ≡ operation_on card.now }
{
    run(past_blanks(&card[1..71]))
}

/// The second run of characters in columns 2 to 71.
pub fn operand_on(card: &Card) -> &[u8]
    ensures { result.now ≡ operand_on card.now }
{
    run(past_blanks(after_run(past_blanks(&card[1..71]))))
}

/// The run that begins in column 16, up to column 71.
pub fn continuation_on(card: &Card) -> &[u8]
    ensures { result.now ≡ continuation_on card.now }
{
    run(&card[15..71])
}

/// Whether column 72 says that the next card continues the statement.
pub fn is_continued(card: &Card) -> bool
    ensures { result ≡ is_continued card.now }
{
    card[71] != BLANK
}

/// Whether columns 1 to 15 are blank, as they have to be on a card that continues another.
pub fn has_margin(card: &Card) -> bool
    ensures { result ≡ has_margin card.now }
{
    card[0..15].iter().all(|b| *b == BLANK)
}
