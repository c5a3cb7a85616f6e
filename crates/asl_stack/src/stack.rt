//! The native stack: it fits 2,000 open nodes, the most that a run may have. No text nests so deep, so typed trees are made
//! here. They are handed on in boxes and lists, since dropping one of these is one call.
use asl_io::MemSink;
use asl_rules::effect::Effect;
use asl_rules::slot::Slot;
use asl_run::{Frames, Run, Stop, call};
use asl_shape::{FieldGiven, PartShape, PatternShape, Routine, SliceShape, TypeShape};
use asl_shared::{Held, Shared};
use asl_syn::code::DynCode;
use asl_syn::token::Span;
use asl_syn::tree::{BinaryOperator, Direction, UnaryOperator};
use asl_tree::act::{Act, Alternative, Bounds, Catcher, Choice, Guard, Last, Simple, TreeFunc};
use asl_tree::body::TreeBody;
use asl_tree::tree::{Callee, Note, Tree};
use asl_types::Ty;
use asl_value::{Kind, Name, Shell, Supers, Value};
use sqlite_items::{Boxed, Items};
use std::alloc::{AllocError, Global};
use std::mem;

const AT: Span = Span {
    file: 0,
    start: 0,
    len: 0,
};

type Node = Boxed<Tree>;

type List = Items<Act>;

fn items<T: Drop, const N: usize>(alloc: Global, xs: [T; N]) -> Result<Items<T>, AllocError> {
    Ok(Items::from_vec(Vec::from_array(alloc, xs)?))
}

fn named(alloc: Global, name: &[u8]) -> Result<Name, AllocError> {
    Shared::new(alloc, Items::from_slice(alloc, name)?)
}

/// What stands at an expression, of which a run reads only the place.
fn note() -> Note {
    Note {
        span: AT,
        ty: Ty::boolean(),
        effect: Effect::Pure,
    }
}

// ---- expressions

fn int(alloc: Global, n: u128) -> Result<Node, AllocError> {
    Boxed::new(alloc, Tree::Int(note(), n))
}

fn truth(alloc: Global, b: bool) -> Result<Node, AllocError> {
    Boxed::new(alloc, Tree::Constant(note(), Value::Bool(b)))
}

/// `-e`
fn minus(alloc: Global, e: Node) -> Result<Node, AllocError> {
    Boxed::new(alloc, Tree::Unary(note(), UnaryOperator::Negate, e))
}

/// `0 + e`
fn sum(alloc: Global, e: Node) -> Result<Node, AllocError> {
    let zero = int(alloc, 0)?;
    Boxed::new(alloc, Tree::Binary(note(), BinaryOperator::Add, zero, e))
}

/// `a[[e]]`, of the global `a`.
fn element_at(alloc: Global, e: Node) -> Result<Node, AllocError> {
    let array = Boxed::new(alloc, Tree::Read(note(), Slot::Global(0)))?;
    Boxed::new(alloc, Tree::Element(note(), array, e))
}

/// `if TRUE then e else 0`
fn chosen(alloc: Global, e: Node) -> Result<Node, AllocError> {
    let condition = truth(alloc, true)?;
    let other = int(alloc, 0)?;
    Boxed::new(alloc, Tree::Conditional(note(), condition, e, other))
}

/// A field that is made of the value at this place.
fn given(alloc: Global, name: &[u8], place: usize) -> Result<FieldGiven, AllocError> {
    Ok(FieldGiven {
        name: named(alloc, name)?,
        ty: Ty::boolean(),
        place,
    })
}

/// `R{f = f, g = g}.f`
fn first_field(alloc: Global, f: Node, g: Node) -> Result<Node, AllocError> {
    let mut fields = Items::new(alloc);
    fields.push(given(alloc, b"f", 0)?)?;
    fields.push(given(alloc, b"g", 1)?)?;
    let shell = Shell::Record(named(alloc, b"R")?);
    let values = items(alloc, [f.into_inner(), g.into_inner()])?;
    let record = Boxed::new(alloc, Tree::Construct(note(), shell, fields, values))?;
    Boxed::new(alloc, Tree::Field(note(), record, 0))
}

/// `(e)`
fn tuple(alloc: Global, e: Node) -> Result<Node, AllocError> {
    let parts = items(alloc, [e.into_inner()])?;
    Boxed::new(alloc, Tree::Tuple(note(), parts))
}

/// `1 as integer{0..e}`
fn converted(alloc: Global, e: Node) -> Result<Node, AllocError> {
    let (one, low) = (int(alloc, 1)?, int(alloc, 0)?);
    let shape = TypeShape::IntegerOf(items(alloc, [PartShape::FromTo])?);
    let ends = items(alloc, [low.into_inner(), e.into_inner()])?;
    Boxed::new(alloc, Tree::As(note(), one, shape, ends))
}

/// `if 1 IN {e} then 1 else 0`
fn found(alloc: Global, e: Node) -> Result<Node, AllocError> {
    let (one, other) = (int(alloc, 1)?, int(alloc, 0)?);
    let values = items(alloc, [e.into_inner()])?;
    let operand = int(alloc, 1)?;
    let pattern = PatternShape::EqualTo(AT);
    let condition = Boxed::new(alloc, Tree::In(note(), operand, pattern, values))?;
    Boxed::new(alloc, Tree::Conditional(note(), condition, one, other))
}

/// `UInt(2[e])`
fn sliced(alloc: Global, e: Node) -> Result<Node, AllocError> {
    let (places, values) = (
        items(alloc, [SliceShape::AtBit])?,
        items(alloc, [e.into_inner()])?,
    );
    let two = int(alloc, 2)?;
    let bits = Boxed::new(alloc, Tree::Slices(note(), two, places, values))?;
    let args = items(alloc, [bits.into_inner()])?;
    called(alloc, Callee::OfLibrary(Routine::UInt), args)
}

/// `f(args)`
fn called(alloc: Global, f: Callee, args: Items<Tree>) -> Result<Node, AllocError> {
    let (widths, params) = (Items::new(alloc), Items::new(alloc));
    Boxed::new(alloc, Tree::Call(note(), f, widths, params, args))
}

/// `-(-e)`
fn minus_minus(alloc: Global, e: Node) -> Result<Node, AllocError> {
    let inner = minus(alloc, e)?;
    minus(alloc, inner)
}

/// `R{f = e, g = 1}.f`
fn as_first_field(alloc: Global, e: Node) -> Result<Node, AllocError> {
    let one = int(alloc, 1)?;
    first_field(alloc, e, one)
}

/// `R{f = 1, g = (e)}.f`
fn beside_first_field(alloc: Global, e: Node) -> Result<Node, AllocError> {
    let other = tuple(alloc, e)?;
    first_field(alloc, int(alloc, 1)?, other)
}

/// How many forms of expression go round another.
const FORMS: usize = 9;

/// A form of expression round another whose value is 1, with the value 1.
fn wrapped(alloc: Global, form: usize, e: Node) -> Result<Node, AllocError> {
    match form {
        0 => minus_minus(alloc, e),
        1 => sum(alloc, e),
        2 => as_first_field(alloc, e),
        3 => element_at(alloc, e),
        4 => beside_first_field(alloc, e),
        5 => converted(alloc, e),
        6 => found(alloc, e),
        7 => sliced(alloc, e),
        _ => chosen(alloc, e),
    }
}

/// How many nodes a form opens.
fn opened(form: usize) -> usize {
    match form {
        4 => 3,
        0 | 2 | 6 | 7 => 2,
        _ => 1,
    }
}

/// So many open nodes of one form after another from this one, or of this form alone, whose value is 1.
fn open(alloc: Global, from: usize, step: usize, nodes: usize) -> Result<Node, AllocError> {
    let mut e = int(alloc, 1)?;
    let mut left = nodes.saturating_sub(1);
    let mut form = from;
    for _ in 0..nodes {
        if left == 0 {
            break;
        }
        let outer = if left < 3 { FORMS } else { form };
        e = wrapped(alloc, outer, e)?;
        left = left.saturating_sub(opened(outer));
        form = form.wrapping_add(step) % FORMS;
    }
    Ok(e)
}

// ---- statements

/// A list of one statement without others in it. Only this function and `around` handle an `Act` itself: what does is dear to
/// prove, since so much may stand in one.
fn one_simple(alloc: Global, simple: Simple) -> Result<List, AllocError> {
    items(alloc, [Act::Simple(simple)])
}

/// `return e;`
fn returning(alloc: Global, e: Node) -> Result<List, AllocError> {
    one_simple(alloc, Simple::Return(AT, Some(e.into_inner())))
}

/// The condition `TRUE` without a limit.
fn always(alloc: Global) -> Result<Guard, AllocError> {
    let condition = truth(alloc, true)?;
    Ok(Guard {
        condition: condition.into_inner(),
        limit: None,
    })
}

/// `0 to 0`
fn once(alloc: Global) -> Result<Bounds, AllocError> {
    let (from, to) = (int(alloc, 0)?, int(alloc, 0)?);
    Ok(Bounds {
        from: from.into_inner(),
        direction: Direction::Up,
        to: to.into_inner(),
        limit: None,
    })
}

/// `-`
fn anything(alloc: Global) -> Result<Choice, AllocError> {
    Ok(Choice {
        patterns: items(alloc, [PatternShape::Anything])?,
        trees: Items::new(alloc),
        condition: None,
    })
}

/// `when - => ..`
fn when_anything(alloc: Global, list: List) -> Result<Items<Alternative>, AllocError> {
    let choice = anything(alloc)?;
    items(alloc, [Alternative::When(choice, list)])
}

/// `throw E{};`
fn thrown(alloc: Global) -> Result<List, AllocError> {
    let own = named(alloc, b"E")?;
    let supers = Supers::none(alloc)?;
    let fields = Shared::new(alloc, Items::new(alloc))?;
    let value = Value::Exception(own.share()?, supers, own, fields);
    let e = Boxed::new(alloc, Tree::Constant(note(), value))?;
    one_simple(alloc, Simple::Throw(AT, Some(e.into_inner())))
}

/// `when x: E => ..`
fn when_thrown(alloc: Global, list: List) -> Result<Items<Catcher>, AllocError> {
    let name = named(alloc, b"E")?;
    items(alloc, [Catcher::Catch(true, name, list)])
}

/// How many forms of statement go round a list.
const LISTS: usize = 8;

/// A form of statement round a list: `if FALSE then else .. end;`, `while TRUE do .. end;`, `repeat .. until TRUE;`,
/// `for i = 0 to 0 do .. end;`, `case 1 of when - => .. end;`, `try .. catch end;` without catchers, and
/// `try throw E{}; catch .. end;` with `when x: E => ..` and with `otherwise => ..`.
fn around(alloc: Global, form: usize, list: List) -> Result<List, AllocError> {
    let act = match form {
        0 => {
            let condition = truth(alloc, false)?;
            let (first, others) = (Items::new(alloc), Items::new(alloc));
            Act::If(AT, condition.into_inner(), first, others, list)
        }
        1 => Act::While(AT, always(alloc)?, list),
        2 => Act::Repeat(AT, list, always(alloc)?),
        3 => Act::For(AT, once(alloc)?, list),
        4 => {
            let others = when_anything(alloc, list)?;
            Act::Case(AT, int(alloc, 1)?.into_inner(), others, Last::None)
        }
        5 => Act::Try(AT, list, Items::new(alloc), Last::None),
        6 => {
            let catchers = when_thrown(alloc, list)?;
            Act::Try(AT, thrown(alloc)?, catchers, Last::None)
        }
        _ => Act::Try(AT, thrown(alloc)?, Items::new(alloc), Last::Otherwise(list)),
    };
    items(alloc, [act])
}

/// A list in so many statements, one in another, of one form after another from this one, or of this form alone.
fn nested(
    alloc: Global,
    from: usize,
    step: usize,
    count: usize,
    innermost: List,
) -> Result<List, AllocError> {
    let mut list = innermost;
    let mut form = from % LISTS;
    for _ in 0..count {
        list = around(alloc, form, list)?;
        form = form.wrapping_add(step) % LISTS;
    }
    Ok(list)
}

// ---- subprograms

/// The result of a function, of which a run asks only whether it holds bits; a procedure has none.
fn result_of(is_function: bool) -> Option<Ty> {
    if is_function {
        Some(Ty::boolean())
    } else {
        None
    }
}

/// A subprogram without parameters and formals that may be active 2,001 times.
fn subprogram(alloc: Global, is_function: bool, body: List) -> Result<TreeFunc, AllocError> {
    Ok(TreeFunc {
        span: AT,
        params: Items::new(alloc),
        formals: Items::new(alloc),
        result: result_of(is_function),
        limit: 2_001,
        body: TreeBody::new(body)?,
    })
}

/// `return f();` in a function, and else `f();`.
fn calling(alloc: Global, is_function: bool, id: usize) -> Result<List, AllocError> {
    let f = Callee::Own(id);
    if is_function {
        returning(alloc, called(alloc, f, Items::new(alloc))?)
    } else {
        let (widths, params, args) = (Items::new(alloc), Items::new(alloc), Items::new(alloc));
        one_simple(alloc, Simple::Invoke(AT, f, widths, params, args))
    }
}

/// `return 1;` in a function, and else `pass;`.
fn last(alloc: Global, is_function: bool) -> Result<List, AllocError> {
    if is_function {
        returning(alloc, int(alloc, 1)?)
    } else {
        one_simple(alloc, Simple::Pass(AT))
    }
}

/// One subprogram and so many more, of which each calls the next.
fn chain(alloc: Global, is_function: bool, more: usize) -> Result<Items<TreeFunc>, AllocError> {
    let mut funcs = Items::new(alloc);
    for id in 0..more {
        let body = calling(alloc, is_function, id.wrapping_add(1))?;
        funcs.push(subprogram(alloc, is_function, body)?)?;
    }
    funcs.push(subprogram(alloc, is_function, last(alloc, is_function)?)?)?;
    Ok(funcs)
}

// ---- runs

/// `[5, 1]`
fn array(alloc: Global) -> Result<Value, AllocError> {
    let elements = items(alloc, [Value::Int(5), Value::Int(1)])?;
    let kind = Shared::new(alloc, Kind::Integers)?;
    Ok(Value::Array(kind, Shared::new(alloc, elements)?))
}

/// A state with one global, an array.
fn state(alloc: Global) -> Result<Run, AllocError> {
    Ok(Run {
        frames: Frames::new(alloc, Vec::from_array(alloc, [array(alloc)?])?),
        handled: Vec::new(alloc),
        live: Vec::new(alloc),
        steps: 1_000_000,
        text_open: false,
    })
}

/// Runs the first of these subprograms from this state.
fn run_from(alloc: Global, funcs: &Items<TreeFunc>, run: &mut Run) -> Result<Option<Value>, Stop> {
    let mut sink = MemSink::new(alloc, 1, 1, Vec::new(alloc))?;
    call(alloc, funcs, run, &mut sink, 0, &[])
}

/// Runs the first of these subprograms.
fn run_first(alloc: Global, funcs: Items<TreeFunc>) -> Result<Option<Value>, Stop> {
    let mut run = state(alloc)?;
    let answer = run_from(alloc, &funcs, &mut run);
    // No text has a tree as deep as some here, and its `drop` needs more stack than the run.
    mem::forget(funcs);
    answer
}

/// Returns such an expression, in so many statements.
fn run_nested(
    alloc: Global,
    from: usize,
    step: usize,
    count: usize,
    nodes: usize,
) -> Result<Option<Value>, Stop> {
    let value = returning(alloc, open(alloc, from, step, nodes)?)?;
    let body = nested(alloc, from, step, count, value)?;
    run_first(alloc, items(alloc, [subprogram(alloc, true, body)?])?)
}

/// Runs such subprograms.
fn run_chain(alloc: Global, is_function: bool, more: usize) -> Result<Option<Value>, Stop> {
    run_first(alloc, chain(alloc, is_function, more)?)
}

/// Runs a subprogram that calls itself.
fn run_recursion(alloc: Global, is_function: bool) -> Result<Option<Value>, Stop> {
    let body = calling(alloc, is_function, 0)?;
    run_first(
        alloc,
        items(alloc, [subprogram(alloc, is_function, body)?])?,
    )
}

/// Whether such a run gives 1 or nothing; not where it ends for more than 2,000 open nodes.
fn fits(answer: &Held<Result<Option<Value>, Stop>>) -> Option<bool> {
    match answer.get() {
        Ok(Some(Value::Int(1))) | Ok(None) => Some(true),
        Err(Stop::Fault(DynCode::D12, _)) => Some(false),
        _ => None,
    }
}

/// Whether such nodes in so many statements end so.
fn nested_ends(
    alloc: Global,
    form: usize,
    step: usize,
    count: usize,
    nodes: usize,
    want: bool,
) -> bool {
    let answer = Held::new(run_nested(alloc, form, step, count, nodes));
    fits(&answer) == Some(want)
}

/// Statements round a `return`, the nodes of its expression, and whether they fit: one node less than the most does, and one
/// more doesn't. The `return` is a node too.
const ENDS: [(usize, usize, bool); 6] = [
    (0, 1_999, true),
    (1_000, 999, true),
    (1_998, 1, true),
    (0, 2_000, false),
    (1_000, 1_000, false),
    (1_999, 1, false),
];

/// Whether the most nodes of these forms fit, and one more doesn't.
fn form_fits(alloc: Global, form: usize, step: usize) -> bool {
    for (count, nodes, want) in ENDS {
        if !nested_ends(alloc, form, step, count, nodes, want) {
            return false;
        }
    }
    true
}

/// Whether so many calls in one another end so.
fn chain_ends(alloc: Global, is_function: bool, more: usize, want: bool) -> bool {
    let answer = Held::new(run_chain(alloc, is_function, more));
    fits(&answer) == Some(want)
}

/// Whether a subprogram that calls itself ends for the nodes that are open.
fn recursion_ends(alloc: Global, is_function: bool) -> bool {
    let answer = Held::new(run_recursion(alloc, is_function));
    fits(&answer) == Some(false)
}

#[test]
fn forms_in_one_another_fit_the_stack(rt: HostRuntime) {
    let alloc = rt.alloc();
    for form in 0..FORMS {
        assert!(rt; form_fits(alloc, form, 0), "{form}");
        assert!(rt; form_fits(alloc, form, 1), "from {form}");
    }
    assert!(rt; nested_ends(alloc, 0, 1, 3_000, 3_000, false));
}

/// A call of a function and the `return` that it stands in are two nodes, that of a procedure is one.
#[test]
fn calls_in_one_another_fit_the_stack(rt: HostRuntime) {
    let alloc = rt.alloc();
    assert!(rt; chain_ends(alloc, true, 999, true));
    assert!(rt; chain_ends(alloc, true, 1_000, false));
    assert!(rt; chain_ends(alloc, false, 1_999, true));
    assert!(rt; chain_ends(alloc, false, 2_000, false));
    assert!(rt; recursion_ends(alloc, true));
    assert!(rt; recursion_ends(alloc, false));
}
