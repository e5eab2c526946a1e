#![tactic(auto)]
// Answers requests on sets and bounds, a line each, as the published Rust is asked beside it.
use columns::mark::Mark;
use columns::measure::Measure;
use combine::CombineSets;
use lower_bound::LowerBound;
use merge::MergeSets;
use order::ordered::Ordered;
use precision::precision::Precision;
use refusal::Refusal;
use rules::element::Element;
use set::stats_set::StatsSet;
use stat::{ParseStatError, Stat};
use stat_bound::{IntersectionResult, StatBound};
use statement::{StatValue, Statement};
use std::alloc::{AllocError, AllocFailed, Global};
use std::io::{BufRead, BufReader};
use std::str::FromStr;
use std::{env, fmt};
use upper_bound::UpperBound;

const HELP: &str =
    "beside_rust: answers a request a line on standard input, as the published Rust is asked beside it

  COLUMN set | SET | STATEMENT                the set afterwards
  COLUMN clear | SET | NAME                   the set afterwards
  COLUMN get | SET | NAME                     the claim
  COLUMN retain_only | SET | NAME ..          the set afterwards; - for no name
  COLUMN merge_ordered | SET | SET            the first set afterwards
  COLUMN merge_unordered | SET | SET          the first set afterwards
  COLUMN combine | SET | SET                  the first set afterwards
  COLUMN lower_union | CLAIM | CLAIM          value CLAIM or none; upper_union and precision_union too
  COLUMN lower_intersection | CLAIM | CLAIM   value CLAIM, empty or none; upper_ and precision_intersection too
  # ...                                       a comment

COLUMN is measure (whole numbers) or mark (LOT:PIECE). A SET is statements NAME=CLAIM parted by blanks, or - for none.
A CLAIM is V (exact), ~V (inexact) or {empty} (none). To try a refusal, set takes a value of another kind as flag:V,
count:V, sum:V or element:V. A refusal is: refused NUMBER | SET. A line that is no request is answered: unreadable.";

// A set of a column that sums up to measures.
type Zone<E> = StatsSet<E, Measure>;

// Why a line has no answer.
#[derive(Drop)]
enum Failure {
    // it is no request
    Unreadable,
    Memory(AllocError),
}

impl From<AllocFailed<Stat>> for Failure {
    fn from(failed: AllocFailed<Stat>) -> Self {
        Failure::Memory(AllocError::from(failed))
    }
}

impl From<ParseStatError> for Failure {
    fn from(_why: ParseStatError) -> Self {
        Failure::Unreadable
    }
}

// A request on two parts of a column.
#[derive(Clone, Copy)]
struct Request<'a> {
    column: &'a str,
    name: &'a str,
    first: &'a str,
    second: &'a str,
}

impl<'a> Request<'a> {
    // `COLUMN NAME | FIRST | SECOND`
    fn read(text: &'a str) -> Option<Self> {
        let (head, parts) = text.split_once('|')?;
        let (first, second) = parts.split_once('|')?;
        let (column, name) = head.trim().split_once(' ')?;
        Some(Request {
            column,
            name: name.trim(),
            first: first.trim(),
            second: second.trim(),
        })
    }
}

// What a request comes to.
#[derive(Drop)]
enum Outcome<E: Element<Sum = Measure>> {
    // what was declined, if anything was, and the first set afterwards
    Set(Option<Refusal>, Zone<E>),
    Claim(Precision<StatValue<E, Measure>>),
    Union(Option<Precision<E>>),
    Intersection(Option<IntersectionResult<Precision<E>>>),
}

impl<E: Element<Sum = Measure> + fmt::Display> fmt::Display for Outcome<E> {
    fn fmt<W: fmt::Write>(&self, f: &mut fmt::Formatter<W>) -> fmt::Result {
        match self {
            Outcome::Set(Some(refusal), zone) => write!(f, "{refusal} | {zone}"),
            Outcome::Set(None, zone) => write!(f, "{zone}"),
            Outcome::Claim(claim) => write!(f, "{claim}"),
            Outcome::Union(Some(claim)) => write!(f, "value {claim}"),
            Outcome::Intersection(Some(IntersectionResult::Value(claim))) => write!(
                f,
                "value {claim}"
            ),
            Outcome::Intersection(Some(IntersectionResult::Empty)) => write!(f, "empty"),
            Outcome::Union(None) | Outcome::Intersection(None) => write!(f, "none"),
        }
    }
}

// What a request comes to, by its column. It is printed alike for either.
#[derive(Drop)]
enum Reply {
    Measures(Outcome<Measure>),
    Marks(Outcome<Mark>),
}

impl fmt::Display for Reply {
    fn fmt<W: fmt::Write>(&self, f: &mut fmt::Formatter<W>) -> fmt::Result {
        match self {
            Reply::Measures(outcome) => write!(f, "{outcome}"),
            Reply::Marks(outcome) => write!(f, "{outcome}"),
        }
    }
}

// A value with its kind before it.
fn read_tagged<E: FromStr>(text: &str) -> Option<StatValue<E, Measure>>
where
    E::Err: Drop,
{
    let (kind, value) = text.split_once(':')?;
    match kind {
        "flag" => Some(StatValue::Flag(bool::from_str(value).ok()?)),
        "element" => Some(StatValue::Element(E::from_str(value).ok()?)),
        "sum" => Some(StatValue::Sum(Measure::from_str(value).ok()?)),
        "count" => Some(StatValue::Count(u64::from_str(value).ok()?)),
        _ => None,
    }
}

// A statement, whatever the kind of its value.
fn read_told<E: FromStr + Copy>(word: &str) -> Option<Statement<E, Measure>>
where
    E::Err: Drop,
{
    if let Ok(statement) = Statement::<E, Measure>::from_str(word) {
        return Some(statement);
    }
    let (name, text) = word.split_once('=')?;
    let stat = Stat::from_str(name).ok()?;
    let claim = match text.strip_prefix('~') {
        Some(value) => Precision::Inexact(read_tagged(value)?),
        None => Precision::Exact(read_tagged(text)?),
    };
    Some(Statement { stat, claim })
}

// A set, by setting its statements one by one.
fn read_set<E: Element<Sum = Measure> + FromStr>(text: &str) -> Result<Zone<E>, Failure>
where
    E::Err: Drop,
{
    let mut zone = Zone::<E>::new();
    for word in text.split_whitespace().filter(|word| *word != "-") {
        let told = read_told::<E>(word).ok_or(Failure::Unreadable)?;
        zone.set(told.stat, told.claim)
            .map_err(|_| Failure::Unreadable)?;
    }
    Ok(zone)
}

// A request that changes the first set.
fn change_set<E: Element<Sum = Measure> + FromStr>(
    heap: Global,
    request: Request<'_>,
) -> Result<Outcome<E>, Failure>
where
    E::Err: Drop,
{
    let mut zone = read_set::<E>(request.first)?;
    let mut declined = None;
    match request.name {
        "set" => {
            let told = read_told::<E>(request.second).ok_or(Failure::Unreadable)?;
            declined = zone.set(told.stat, told.claim).err();
        }
        "clear" => zone.clear(Stat::from_str(request.second)?),
        "retain_only" => {
            let mut stats = Vec::new(heap);
            for word in request
                .second
                .split_whitespace()
                .filter(|word| *word != "-")
            {
                stats.push(Stat::from_str(word)?)?;
            }
            zone.retain_only(&stats);
        }
        "merge_ordered" => zone.merge_ordered(&read_set::<E>(request.second)?),
        "merge_unordered" => zone.merge_unordered(&read_set::<E>(request.second)?),
        "combine" => {
            let mut other = read_set::<E>(request.second)?;
            declined = zone.combine_sets(&mut other).err();
        }
        _ => return Err(Failure::Unreadable),
    }
    Ok(Outcome::Set(declined, zone))
}

// A claim of an element.
fn read_claim<E: FromStr + Copy>(text: &str) -> Result<Precision<E>, Failure>
where
    E::Err: Drop,
{
    Precision::<E>::from_str(text).map_err(|_| Failure::Unreadable)
}

fn union<E: Ordered + Element<Sum = Measure> + FromStr, B: StatBound<E>>(
    request: Request<'_>,
) -> Result<Outcome<E>, Failure>
where
    E::Err: Drop,
{
    let first = read_claim::<E>(request.first)?;
    let second = read_claim::<E>(request.second)?;
    let union = B::lift(first).union(&B::lift(second));
    Ok(Outcome::Union(union.map(|bound| bound.into_value())))
}

fn intersection<E: Ordered + Element<Sum = Measure> + FromStr, B: StatBound<E>>(
    request: Request<'_>,
) -> Result<Outcome<E>, Failure>
where
    E::Err: Drop,
{
    let first = read_claim::<E>(request.first)?;
    let second = read_claim::<E>(request.second)?;
    let intersection = B::lift(first).intersection(&B::lift(second));
    Ok(Outcome::Intersection(intersection.map(|meet| match meet {
        IntersectionResult::Value(bound) => IntersectionResult::Value(bound.into_value()),
        IntersectionResult::Empty => IntersectionResult::Empty,
    })))
}

// What a request of a column comes to.
fn answer<E: Element<Sum = Measure> + FromStr>(
    heap: Global,
    request: Request<'_>,
) -> Result<Outcome<E>, Failure>
where
    E::Err: Drop,
{
    match request.name {
        "get" => {
            let zone = read_set::<E>(request.first)?;
            Ok(Outcome::Claim(zone.get(Stat::from_str(request.second)?)))
        }
        "lower_union" => union::<E, LowerBound<E>>(request),
        "upper_union" => union::<E, UpperBound<E>>(request),
        "precision_union" => union::<E, Precision<E>>(request),
        "lower_intersection" => intersection::<E, LowerBound<E>>(request),
        "upper_intersection" => intersection::<E, UpperBound<E>>(request),
        "precision_intersection" => intersection::<E, Precision<E>>(request),
        _ => change_set::<E>(heap, request),
    }
}

// What a line comes to.
fn respond(heap: Global, text: &str) -> Result<Reply, Failure> {
    let request = Request::read(text).ok_or(Failure::Unreadable)?;
    match request.column {
        "measure" => Ok(Reply::Measures(answer(heap, request)?)),
        "mark" => Ok(Reply::Marks(answer(heap, request)?)),
        _ => Err(Failure::Unreadable),
    }
}

fn main(rt: HostRuntime) -> anyhow::Result<()> {
    if env::args(&rt)?
        .skip(1)
        .any(|word| word.as_str() == "--help")
    {
        println!(rt; "{HELP}")?;
        return Ok(());
    }
    let heap = rt.alloc();
    for text in BufReader::new(heap, rt.stdin())?.lines(heap) {
        let text = text?;
        let trimmed = text.as_str().trim();
        if trimmed.is_empty() || trimmed.starts_with('#') {
            continue;
        }
        match respond(heap, trimmed) {
            Ok(reply) => println!(rt; "{reply}")?,
            Err(Failure::Unreadable) => println!(rt; "unreadable")?,
            Err(Failure::Memory(error)) => return Err(error.into()),
        }
    }
    Ok(())
}
