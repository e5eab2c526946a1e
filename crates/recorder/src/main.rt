#![tactic(auto)]
// Reads the statements of two zones, a request a line, merges or combines them, and prints the set that comes of it.
use columns::mark::Mark;
use columns::measure::Measure;
use combine::CombineSets;
use merge::MergeSets;
use refusal::Refusal;
use rules::element::Element;
use set::stats_set::StatsSet;
use statement::Statement;
use statement::text::ParseStatementError;
use std::error::Error;
use std::io::{BufRead, BufReader};
use std::str::FromStr;
use std::{env, fmt};

const HELP: &str =
    "recorder: merges or combines the statistics of two zones, a request a line on standard input

  COLUMN merge_ordered | SET | SET      the second zone's rows follow the first's
  COLUMN merge_unordered | SET | SET    the rows are put together in no order
  COLUMN combine | SET | SET            both sets speak of the same rows
  # ...                                 a comment

COLUMN is measure (whole numbers) or mark (LOT:PIECE). A SET is statements NAME=CLAIM parted by blanks, or - for none.
A CLAIM is V (exact), ~V (inexact) or {empty} (none). NAME is is_constant, is_sorted, is_strict_sorted, max, min, sum,
null_count, uncompressed_size_in_bytes or nan_count. The answer is the set of the first zone afterwards; where two claims
contradict each other it is: refused 2 STATISTIC | SET.";

// A set of a column that sums up to measures.
type Zone<E> = StatsSet<E, Measure>;

// Why a line is no request.
#[derive(Clone, Copy, PartialEq, Eq, Debug)]
enum Unreadable {
    NoSet,
    NoSecondSet,
    NoColumn,
    NoRequest,
    // a word of a set is no statement
    Statement(ParseStatementError),
    // the column has no such statistic
    Declined(Refusal),
}

impl fmt::Display for Unreadable {
    fn fmt<W: fmt::Write>(&self, f: &mut fmt::Formatter<W>) -> fmt::Result {
        match self {
            Unreadable::NoSet => write!(f, "a request is COLUMN REQUEST | SET | SET"),
            Unreadable::NoSecondSet => write!(f, "the second set is missing"),
            Unreadable::NoColumn => write!(f, "the column is neither measure nor mark"),
            Unreadable::NoRequest => write!(
                f,
                "the request is none of merge_ordered, merge_unordered and combine"
            ),
            Unreadable::Statement(why) => write!(f, "{why}"),
            Unreadable::Declined(_) => write!(f, "this column has no such statistic"),
        }
    }
}

impl Error for Unreadable {}

impl From<ParseStatementError> for Unreadable {
    fn from(why: ParseStatementError) -> Self {
        Unreadable::Statement(why)
    }
}

impl From<Refusal> for Unreadable {
    fn from(why: Refusal) -> Self {
        Unreadable::Declined(why)
    }
}

// What was declined, if anything was, and the first zone afterwards.
#[derive(Drop)]
struct Answer<E: Element<Sum = Measure>> {
    declined: Option<Refusal>,
    zone: Zone<E>,
}

impl<E: Element<Sum = Measure> + fmt::Display> fmt::Display for Answer<E> {
    fn fmt<W: fmt::Write>(&self, f: &mut fmt::Formatter<W>) -> fmt::Result {
        if let Some(refusal) = self.declined {
            write!(f, "{refusal} | ")?;
        }
        write!(f, "{}", self.zone)
    }
}

// The answer, by the column of the zones. It is printed alike for either.
#[derive(Drop)]
enum Reply {
    Measures(Answer<Measure>),
    Marks(Answer<Mark>),
}

impl fmt::Display for Reply {
    fn fmt<W: fmt::Write>(&self, f: &mut fmt::Formatter<W>) -> fmt::Result {
        match self {
            Reply::Measures(answer) => write!(f, "{answer}"),
            Reply::Marks(answer) => write!(f, "{answer}"),
        }
    }
}

fn read_set<E: Element<Sum = Measure> + FromStr>(text: &str) -> Result<Zone<E>, Unreadable>
where
    E::Err: Drop,
{
    let mut zone = Zone::<E>::new();
    for word in text.split_whitespace().filter(|word| *word != "-") {
        let told = Statement::<E, Measure>::from_str(word)?;
        zone.set(told.stat, told.claim)?;
    }
    Ok(zone)
}

// A request on two sets of a column.
#[derive(Clone, Copy)]
struct Request<'a> {
    column: &'a str,
    name: &'a str,
    first: &'a str,
    second: &'a str,
}

impl<'a> Request<'a> {
    // `COLUMN NAME | FIRST | SECOND`
    fn read(text: &'a str) -> Result<Self, Unreadable> {
        let (head, sets) = text.split_once('|').ok_or(Unreadable::NoSet)?;
        let (first, second) = sets.split_once('|').ok_or(Unreadable::NoSecondSet)?;
        let mut words = head.split_whitespace();
        Ok(Request {
            column: words.next().unwrap_or(""),
            name: words.next().unwrap_or(""),
            first,
            second,
        })
    }
}

// What a request on two sets of a column comes to.
fn carry_out<E: Element<Sum = Measure> + FromStr>(
    request: Request<'_>,
) -> Result<Answer<E>, Unreadable>
where
    E::Err: Drop,
{
    let mut zone = read_set::<E>(request.first)?;
    let mut other = read_set::<E>(request.second)?;
    let mut declined = None;
    match request.name {
        "merge_ordered" => zone.merge_ordered(&other),
        "merge_unordered" => zone.merge_unordered(&other),
        "combine" => declined = zone.combine_sets(&mut other).err(),
        _ => return Err(Unreadable::NoRequest),
    }
    Ok(Answer { declined, zone })
}

// What a line comes to.
fn respond(text: &str) -> Result<Reply, Unreadable> {
    let request = Request::read(text)?;
    match request.column {
        "measure" => Ok(Reply::Measures(carry_out(request)?)),
        "mark" => Ok(Reply::Marks(carry_out(request)?)),
        _ => Err(Unreadable::NoColumn),
    }
}

fn main(rt: HostRuntime) -> anyhow::Result<()> {
    if env::args(&rt)?
        .skip(1)
        .any(|word| word.as_str() == "--help")
    {
        println!(rt; "{HELP}")?;
        return Ok(());
    }
    let heap = rt.alloc();
    // by hand: a range of numbers ends
    let mut number = 0u64;
    for text in BufReader::new(heap, rt.stdin())?.lines(heap) {
        let text = text?;
        number = number.saturating_add(1);
        let trimmed = text.as_str().trim();
        if trimmed.is_empty() || trimmed.starts_with('#') {
            continue;
        }
        match respond(trimmed) {
            Ok(reply) => println!(rt; "{reply}")?,
            Err(why) => println!(rt; "line {number}: {why}")?,
        }
    }
    Ok(())
}
