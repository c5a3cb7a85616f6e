//! The texts of values, which come from outside, operators on labels, and replacements in values with one owner and several.
//! A value is held where another call may fail, since its drop is then one call.
use asl_cons::Cons;
use asl_io::MemSink;
use asl_shape::{FieldGiven, construct};
use asl_shared::{Held, Shared};
use asl_syn::code::DynCode;
use asl_syn::token::Span;
use asl_syn::tree::{BinaryOperator, UnaryOperator};
use asl_types::Ty;
use asl_value::{
    Failure, FieldValue, Kind, Name, Shell, Step, Supers, Value, binary, copy, element_of,
    field_in, leaves_open, literal, literal_bits, part_in, plain_bits, replace, show, truth, tuple,
    unary,
};
use asl_vector::Vector;
use sqlite_items::Items;
use std::alloc::{AllocError, Global};

const HERE: Span = Span {
    file: 0,
    start: 0,
    len: 0,
};

/// A value that is put together.
#[derive(Clone, Copy)]
enum Sample {
    Int(i128),
    Bool(bool),
    /// An enumeration and its label.
    Label(&'static str, &'static str),
    /// A record `Point` of two integers.
    Point(i128, i128),
    /// An exception of type `Late`.
    Late(i128),
    /// A tuple of a record, which holds an array, and a boolean.
    Nested,
}

/// A value that an operation gives.
#[derive(Clone, Copy)]
enum Operation {
    /// The bits of a number at a width.
    Bits(i128, i128),
    /// The bits of a literal.
    Literal(&'static str),
    Negated,
    FirstPart,
    Constructed,
    LastField,
    SecondElement,
}

/// Values with their texts.
const SAMPLES: &[(Sample, &str)] = &[
    (Sample::Int(0), "0"),
    (Sample::Int(-1), "-1"),
    (
        Sample::Int(i128::MAX),
        "170141183460469231731687303715884105727",
    ),
    (
        Sample::Int(i128::MIN),
        "-170141183460469231731687303715884105728",
    ),
    (Sample::Bool(false), "FALSE"),
    (Sample::Bool(true), "TRUE"),
    (Sample::Label("Colour", "RED"), "RED"),
    (Sample::Point(1, -2), "Point{x=1, y=-2}"),
    (Sample::Late(5), "Late{code=5}"),
    (Sample::Nested, "(Point{x=[3, 4], y=-2}, TRUE)"),
];

fn samples() -> &'static [(Sample, &'static str)] {
    SAMPLES
}

/// What operations give, with the texts. A record is constructed with its fields given the other way round.
const OPERATIONS: &[(Operation, &str)] = &[
    (Operation::Bits(0, 0), "''"),
    (Operation::Literal("''"), "''"),
    (Operation::Bits(10, 4), "'1010'"),
    (Operation::Literal("'10 10'"), "'1010'"),
    (Operation::Bits(1, 4), "'0001'"),
    (Operation::Literal("'0 001'"), "'0001'"),
    (Operation::Bits(-2, 3), "'110'"),
    (Operation::Literal("'110'"), "'110'"),
    (Operation::Negated, "-7"),
    (Operation::FirstPart, "Point{x=[3, 4], y=-2}"),
    (Operation::Constructed, "Point{x=1, y=TRUE}"),
    (Operation::LastField, "TRUE"),
    (Operation::SecondElement, "4"),
];

fn operations() -> &'static [(Operation, &'static str)] {
    OPERATIONS
}

/// Labels, and whether each is equal to `RED` of `Colour`; None where it is of another kind.
const LABELS: [(&str, &str, Option<bool>); 3] = [
    ("Colour", "RED", Some(true)),
    ("Colour", "GREEN", Some(false)),
    ("Light", "RED", None),
];

fn name(alloc: Global, text: &str) -> Result<Name, AllocError> {
    Shared::new(alloc, Items::from_slice(alloc, text.as_bytes())?)
}

fn int(n: i128) -> Held<Value> {
    Held::new(Value::Int(n))
}

fn yes() -> Held<Value> {
    Held::new(Value::Bool(true))
}

fn pair(
    alloc: Global,
    first: Held<Value>,
    second: Held<Value>,
) -> Result<Items<Value>, AllocError> {
    let mut items = Items::new(alloc);
    items.push(first.into_inner())?;
    items.push(second.into_inner())?;
    Ok(items)
}

fn array(alloc: Global, first: i128, second: i128) -> Result<Value, AllocError> {
    let elements = pair(alloc, int(first), int(second))?;
    Ok(Value::Array(
        Shared::new(alloc, Kind::Integers)?,
        Shared::new(alloc, elements)?,
    ))
}

/// A field with its value.
fn field(alloc: Global, own: &str, value: Held<Value>) -> Result<FieldValue, AllocError> {
    Ok(FieldValue::Given(name(alloc, own)?, value.into_inner()))
}

/// A record `Point` with fields `x` and `y`.
fn point(alloc: Global, x: Held<Value>, y: Held<Value>) -> Result<Value, AllocError> {
    let mut fields = Items::new(alloc);
    fields.push(field(alloc, "x", x)?)?;
    fields.push(field(alloc, "y", y)?)?;
    Ok(Value::Record(name(alloc, "Point")?, Shared::new(alloc, fields)?))
}

/// An exception of type `Late`, which `Error` writes, with a field `code`.
fn late(alloc: Global, code: i128) -> Result<Value, AllocError> {
    let mut fields = Items::new(alloc);
    fields.push(field(alloc, "code", int(code))?)?;
    let supers = Supers::none(alloc)?.with(alloc, &name(alloc, "Error")?)?;
    Ok(Value::Exception(
        name(alloc, "Late")?,
        supers,
        name(alloc, "Error")?,
        Shared::new(alloc, fields)?,
    ))
}

fn label(alloc: Global, enumeration: &str, own: &str) -> Result<Value, AllocError> {
    Ok(Value::Label(name(alloc, enumeration)?, name(alloc, own)?))
}

/// A tuple of a record and a boolean.
fn nested(alloc: Global) -> Result<Value, AllocError> {
    let elements = array(alloc, 3, 4)?;
    let here = point(alloc, Held::new(elements), int(-2))?;
    tuple(alloc, pair(alloc, Held::new(here), yes())?)
}

/// Whether a value has this text, which leaves text open.
fn has(alloc: Global, value: &Value, text: &str) -> bool {
    match MemSink::new(alloc, 128, 128, Vec::new(alloc)) {
        Ok(mut sink) => {
            show(value, &mut sink).is_ok()
                && sink.bytes() == text.as_bytes()
                && leaves_open(false, value)
        }
        Err(_) => false,
    }
}

/// Whether it is a value with this text.
fn gives<E: Drop>(alloc: Global, found: Result<Value, E>, text: &str) -> bool {
    match found {
        Ok(value) => has(alloc, Held::new(value).get(), text),
        Err(_) => false,
    }
}

fn sampled(alloc: Global, sample: Sample) -> Result<Value, AllocError> {
    match sample {
        Sample::Int(number) => Ok(Value::Int(number)),
        Sample::Bool(truth) => Ok(Value::Bool(truth)),
        Sample::Label(enumeration, own) => label(alloc, enumeration, own),
        Sample::Point(x, y) => point(alloc, int(x), int(y)),
        Sample::Late(code) => late(alloc, code),
        Sample::Nested => nested(alloc),
    }
}

/// Whether a label is equal to `RED` of `Colour`.
fn compared(alloc: Global, enumeration: &str, own: &str) -> Result<bool, Failure> {
    let red = Held::new(label(alloc, "Colour", "RED")?);
    let other = Held::new(label(alloc, enumeration, own)?);
    let found = binary(alloc, HERE, BinaryOperator::Equal, red.get(), other.get())?;
    truth(HERE, Held::new(found).get())
}

/// `-7`
fn negated(alloc: Global) -> Result<Value, Failure> {
    let seven = Held::new(literal(HERE, 7)?);
    unary(alloc, HERE, UnaryOperator::Negate, seven.get())
}

fn given(alloc: Global, text: &str, ty: Held<Ty>, place: usize) -> Result<FieldGiven, AllocError> {
    let name = name(alloc, text)?;
    Ok(FieldGiven {
        name,
        ty: ty.into_inner(),
        place,
    })
}

fn integers(alloc: Global) -> Result<Ty, AllocError> {
    Ok(Ty::integer(Shared::new(alloc, Cons::whole(alloc))?))
}

/// A record whose fields are given the other way round.
fn constructed(alloc: Global) -> Result<Value, Failure> {
    let mut fields = Items::new(alloc);
    fields.push(given(alloc, "x", Held::new(integers(alloc)?), 1)?)?;
    fields.push(given(alloc, "y", Held::new(Ty::boolean()), 0)?)?;
    let values = pair(alloc, yes(), int(1))?;
    let shell = Shell::Record(name(alloc, "Point")?);
    construct(alloc, HERE, &shell, fields.as_slice(), values.as_slice())
}

/// The field `y` of that record.
fn last_field(alloc: Global) -> Result<Value, Failure> {
    let record = Held::new(constructed(alloc)?);
    field_in(HERE, 1, record.get())
}

/// The first part of a tuple.
fn first_part(alloc: Global) -> Result<Value, Failure> {
    let both = Held::new(nested(alloc)?);
    part_in(HERE, &[0], both.get())
}

/// The second element of an array.
fn second_element(alloc: Global) -> Result<Value, Failure> {
    let elements = Held::new(array(alloc, 3, 4)?);
    element_of(HERE, elements.get(), int(1).get())
}

/// The bits of a number.
fn bits(alloc: Global, number: i128, width: i128) -> Result<Value, Failure> {
    match Vector::from_int(alloc, number, width)? {
        Ok(bits) => Ok(plain_bits(bits)),
        Err(_) => Err(Failure::WrongKind(HERE)),
    }
}

fn result_of(alloc: Global, operation: Operation) -> Result<Value, Failure> {
    match operation {
        Operation::Bits(number, width) => bits(alloc, number, width),
        Operation::Literal(text) => literal_bits(alloc, HERE, text.as_bytes()),
        Operation::Negated => negated(alloc),
        Operation::FirstPart => first_part(alloc),
        Operation::Constructed => constructed(alloc),
        Operation::LastField => last_field(alloc),
        Operation::SecondElement => second_element(alloc),
    }
}

/// Whether a label is so compared with `RED` of `Colour`.
fn compares(alloc: Global, enumeration: &str, own: &str, want: Option<bool>) -> bool {
    match compared(alloc, enumeration, own) {
        Ok(equal) => want == Some(equal),
        Err(Failure::WrongKind(_)) => want.is_none(),
        Err(Failure::Fault(_, _) | Failure::UnknownType(_) | Failure::NoMemory) => false,
    }
}

#[test]
fn values_are_written(rt: HostRuntime) {
    let alloc = rt.alloc();
    for &(value, text) in samples() {
        assert!(rt; gives(alloc, sampled(alloc, value), text), "{text}");
    }
    for &(operation, text) in operations() {
        assert!(rt; gives(alloc, result_of(alloc, operation), text), "{text}");
    }
    for (enumeration, own, want) in LABELS {
        assert!(rt; compares(alloc, enumeration, own, want), "{own}");
    }
}

/// Replaces an element of the field `y`.
fn replace_element(
    alloc: Global,
    value: &mut Value,
    index: i128,
    new: i128,
) -> Result<(), Failure> {
    let mut steps = Items::new(alloc);
    steps.push(Step::Field(HERE, 1))?;
    steps.push(Step::Element(HERE, Value::Int(index)))?;
    replace(alloc, value, steps.as_slice(), false, Value::Int(new))
}

/// A record with an array in its field `y`.
fn holding(alloc: Global) -> Result<Value, AllocError> {
    let elements = array(alloc, 3, 4)?;
    point(alloc, int(1), Held::new(elements))
}

/// Whether the first element is replaced in this value, and not in its copy.
fn replaces_the_first(alloc: Global, value: &mut Value, other: &Value) -> bool {
    replace_element(alloc, value, 0, 9).is_ok()
        && has(alloc, value, "Point{x=1, y=[9, 4]}")
        && has(alloc, other, "Point{x=1, y=[3, 4]}")
}

/// Whether no element behind the last is replaced, and then the last is.
fn replaces_the_last(alloc: Global, value: &mut Value) -> bool {
    matches!(
        replace_element(alloc, value, 2, 7),
        Err(Failure::Fault(DynCode::D06, _))
    ) && replace_element(alloc, value, 1, 8).is_ok()
        && has(alloc, value, "Point{x=1, y=[9, 8]}")
}

/// Whether a part is replaced in one value, and not in its copy.
fn replaces_a_part(alloc: Global, value: &mut Value) -> bool {
    match copy(value) {
        Ok(other) => {
            let other = Held::new(other);
            replaces_the_first(alloc, value, other.get()) && replaces_the_last(alloc, value)
        }
        Err(_) => false,
    }
}

/// An array of 65,536 integers.
fn long(alloc: Global) -> Result<Value, AllocError> {
    let mut elements = Items::new(alloc);
    for _ in 0..65536u32 {
        elements.push(Value::Int(7))?;
    }
    let kind = Shared::new(alloc, Kind::Integers)?;
    Ok(Value::Array(kind, Shared::new(alloc, elements)?))
}

/// Replaces the last of its elements.
fn replace_last(alloc: Global, value: &mut Value) -> Result<(), Failure> {
    let mut steps = Items::new(alloc);
    steps.push(Step::Element(HERE, Value::Int(65535)))?;
    replace(alloc, value, steps.as_slice(), false, Value::Int(8))
}

/// How long the text of a value is, where it is written whole.
fn written(alloc: Global, value: &Value) -> Option<usize> {
    let mut sink = MemSink::new(alloc, 262144, 4096, Vec::new(alloc)).ok()?;
    show(value, &mut sink).ok()?;
    Some(sink.bytes().len())
}

/// How long its text is once that is replaced.
fn replaced_and_written(alloc: Global, value: &mut Value) -> Option<usize> {
    replace_last(alloc, value).ok()?;
    written(alloc, value)
}

#[test]
fn parts_are_replaced(rt: HostRuntime) {
    let alloc = rt.alloc();
    let mut value = holding(alloc).expect(&rt, "memory");
    assert!(rt; replaces_a_part(alloc, &mut value));
    let mut value = long(alloc).expect(&rt, "memory");
    assert_eq!(rt; replaced_and_written(alloc, &mut value), Some(196608));
}
