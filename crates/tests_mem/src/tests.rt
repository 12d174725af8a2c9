//! Edges of each operation, with values by hand (ISO/IEC 9899:2011, 6.5.5 to 6.5.9).
use kt_mem::{
    Cell, Cells, KeptLocal, KeptLocals, Name, Piece, Pieces, Stored, Trap, Value, Values, add,
    add_elements, answers_law, defined, div, division_law, elements_between, equal, greater,
    greater_equal, heap_number_law, is_zero, less, less_equal, live_cells_law, mul, mutex_law,
    narrow, not, not_equal, release_law, rem, shape_law, store_law, sub, sub_elements, truth,
    type_law,
};
use kt_types::{Text, Ty};
use std::alloc::{AllocError, Global};
use std::test::Fail;

fn num(z: i64) -> Value {
    Value::Num(z)
}

/// A pointer into the first global.
fn into(offset: u32) -> Value {
    Value::Ptr(Name::Glob(0), offset)
}

/// A pointer into a heap object.
fn heap(offset: u32) -> Value {
    Value::Ptr(Name::Heap(0), offset)
}

/// A type of a row; `pointer` is one to the type at place 2.
fn type_of(word: &str) -> Ty {
    match word {
        "char" => Ty::Char,
        "int" => Ty::Int,
        "long" => Ty::Long,
        "pointer" => Ty::Ptr(2),
        _ => Ty::Mutex,
    }
}

/// A value of a row: a number, or the offset of a pointer behind `g` or `h`.
fn value_of(word: &str) -> Value {
    match word {
        "null" => Value::Null,
        "undef" => Value::Undef,
        "free" => Value::Free,
        _ => match (word.split_once('g'), word.split_once('h')) {
            (Some((_, offset)), _) => into(offset.parse::<u32>().unwrap_or(0)),
            (_, Some((_, offset))) => heap(offset.parse::<u32>().unwrap_or(0)),
            _ => num(word.parse::<i64>().unwrap_or(0)),
        },
    }
}

/// An answer as a row writes it; of a value that no row has, nothing.
fn shown(alloc: Global, answer: Result<Value, Trap>) -> Result<String, AllocError> {
    match answer {
        Ok(Value::Num(z)) => format!(in alloc; "{z}"),
        Ok(Value::Ptr(Name::Glob(0), offset)) => format!(in alloc; "g{offset}"),
        Ok(Value::Ptr(Name::Heap(0), offset)) => format!(in alloc; "h{offset}"),
        Ok(_) => Ok(String::new(alloc)),
        Err(trap) => format!(in alloc; "{trap:?}"),
    }
}

/// The first row of a table that is answered otherwise, with the answer.
fn differing(alloc: Global, table: &str) -> Result<String, AllocError> {
    for row in table.lines() {
        let (asked, wanted) = row.split_once(" = ").unwrap_or((row, ""));
        let (ty, rest) = asked.split_once(' ').unwrap_or((asked, ""));
        let (a, rest) = rest.split_once(' ').unwrap_or((rest, ""));
        let (sign, b) = rest.split_once(' ').unwrap_or((rest, ""));
        let answer = answer(type_of(ty), value_of(a), sign, value_of(b));
        let found = shown(alloc, answer)?;
        if found.as_str() != wanted {
            return format!(in alloc; "{found}, and not {row}");
        }
    }
    Ok(String::new(alloc))
}

/// What the operation of a row answers.
fn answer(ty: Ty, a: Value, sign: &str, b: Value) -> Result<Value, Trap> {
    match sign {
        "+" => add(ty, a, b),
        "-" => sub(ty, a, b),
        "*" => mul(ty, a, b),
        "/" => div(ty, a, b),
        "%" => rem(ty, a, b),
        "as" => narrow(ty, a),
        "==" => equal(a, b),
        "!=" => not_equal(a, b),
        "<" => less(a, b),
        ">" => greater(a, b),
        "<=" => less_equal(a, b),
        _ => greater_equal(a, b),
    }
}

/// Sums: a type, two values, and what is answered.
const SUMS: &str = "\
int 2147483646 + 1 = 2147483647
int 2147483647 + 1 = Overflow
int -2147483648 + -1 = Overflow
long 2147483647 + 1 = 2147483648
long 9223372036854775807 + 1 = Overflow
char 100 + 27 = 127
char 100 + 28 = Overflow
pointer g65535 + 1 = g65536
pointer g65536 + 1 = Bounds
pointer g65536 + 0 = g65536
pointer 3 + h4 = h7
pointer g0 + -1 = Bounds
pointer g1 + 9223372036854775807 = Bounds
pointer null + 0 = Null
pointer null + 65537 = Null
pointer 1 + 1 = Uninit
int g0 + 1 = Uninit
int undef + 1 = Uninit
pointer undef + 1 = Uninit
mutex 1 + 1 = Uninit
";

/// Differences.
const DIFFERENCES: &str = "\
int -2147483647 - 1 = -2147483648
int -2147483648 - 1 = Overflow
int 0 - -2147483648 = Overflow
long 0 - -9223372036854775808 = Overflow
pointer g65536 - 65536 = g0
pointer g1 - 2 = Bounds
pointer g0 - -9223372036854775808 = Bounds
pointer null - 1 = Null
pointer g1 - g0 = Uninit
long g5 - g2 = 3
long g2 - g5 = -3
long g2 - h2 = Bounds
long null - h2 = Null
long h2 - null = Null
int g5 - g2 = Uninit
long g5 - undef = Uninit
";

/// Products.
const PRODUCTS: &str = "\
int 65536 * 32767 = 2147418112
int 65536 * 32768 = Overflow
int 65536 * -32768 = -2147483648
long 3037000499 * 3037000499 = 9223372030926249001
long 3037000500 * 3037000500 = Overflow
long -9223372036854775808 * -1 = Overflow
pointer 1 * 1 = Uninit
int 0 * undef = Uninit
";

/// Quotients and remainders.
const QUOTIENTS: &str = "\
int 7 / 2 = 3
int 7 % 2 = 1
int -7 / 2 = -3
int -7 % 2 = -1
int 7 / -2 = -3
int 7 % -2 = 1
int -7 / -2 = 3
int -7 % -2 = -1
int 1 / 0 = Zero
int 1 % 0 = Zero
int -2147483648 / -1 = Overflow
int -2147483648 % -1 = Overflow
long -2147483648 / -1 = 2147483648
long -2147483648 % -1 = 0
long -9223372036854775808 / -1 = Overflow
long -9223372036854775808 % -1 = Overflow
mutex 1 / 1 = Uninit
mutex 1 % 1 = Uninit
int undef / 0 = Uninit
int undef % 0 = Uninit
int 1 / null = Uninit
int 1 % null = Uninit
";

/// Conversions of the first value.
const CONVERSIONS: &str = "\
char 127 as 127 = 127
char 128 as 128 = Range
char -128 as -128 = -128
char -129 as -129 = Range
char 300 as 300 = Range
int 2147483647 as 2147483647 = 2147483647
int 2147483648 as 2147483648 = Range
int -2147483649 as -2147483649 = Range
long -9223372036854775808 as -9223372036854775808 = -9223372036854775808
int undef as undef = Uninit
pointer 0 as 0 = Uninit
";

/// Comparisons, which ask for no type.
const COMPARISONS: &str = "\
int -1 == 1 = 0
int -1 < 1 = 1
int -1 > 1 = 0
int 1 == 1 = 1
int 1 < 1 = 0
int 1 > 1 = 0
int g2 == g3 = 0
int g2 < g3 = 1
int g2 > g3 = 0
int g3 == g3 = 1
int g3 < g3 = 0
int g3 > g3 = 0
int g3 == h3 = 0
int g3 < h3 = Bounds
int g3 > h3 = Bounds
int g0 == null = 0
int g0 < null = Null
int g0 > null = Null
int null == null = 1
int null < null = Null
int null > null = Null
int 0 == null = Uninit
int 0 < null = Uninit
int 0 > null = Uninit
int undef == 0 = Uninit
int undef < 0 = Uninit
int undef > 0 = Uninit
int 1 != 2 = 1
int 2 <= 2 = 1
int g1 >= g2 = 0
";

#[test]
fn arithmetic(rt: HostRuntime) -> Result<(), Fail> {
    for table in [
        SUMS,
        DIFFERENCES,
        PRODUCTS,
        QUOTIENTS,
        CONVERSIONS,
        COMPARISONS,
    ] {
        assert_eq!(rt; differing(rt.alloc(), table)?.as_str(), "");
    }
    Ok(())
}

/// Whether tests for zero, negations and the test for a value that was written answer so.
fn zeros_are_told() -> bool {
    is_zero(num(0)) == Ok(true)
        && is_zero(num(-1)) == Ok(false)
        && is_zero(Value::Null) == Ok(true)
        && is_zero(into(0)) == Ok(false)
        && is_zero(Value::Free) == Err(Trap::Uninit)
        && is_zero(Value::Undef) == Err(Trap::Uninit)
        && not(num(0)) == Ok(truth(true))
        && not(into(0)) == Ok(truth(false))
        && defined(Value::Held(3)) == Ok(Value::Held(3))
        && defined(Value::Undef) == Err(Trap::Uninit)
}

/// Whether sums, and differences, of pointers and counts of elements answer so.
fn elements_are_told() -> bool {
    let most = num(i64::MAX);
    add_elements(into(4), num(2), 3) == Ok(into(10))
        && add_elements(into(4), num(-2), 2) == Ok(into(0))
        && add_elements(into(4), num(-2), 3) == Err(Trap::Bounds)
        && add_elements(into(0), most, 65_536) == Err(Trap::Bounds)
        && add_elements(Value::Null, most, 65_536) == Err(Trap::Null)
        && add_elements(into(0), Value::Undef, 1) == Err(Trap::Uninit)
        && sub_elements(into(10), num(2), 3) == Ok(into(4))
}

/// Whether counts of elements between pointers answer so.
fn counts_are_told() -> bool {
    elements_between(into(10), into(4), 3) == Ok(num(2))
        && elements_between(into(4), into(10), 3) == Ok(num(-2))
        && elements_between(into(10), into(5), 3) == Err(Trap::Bounds)
        && elements_between(into(5), Value::Null, 3) == Err(Trap::Null)
}

#[test]
fn zeros_and_elements(rt: HostRuntime) {
    assert!(rt; zeros_are_told());
    assert!(rt; elements_are_told());
    assert!(rt; counts_are_told());
}

#[test]
fn cells_keep_values(rt: HostRuntime) {
    for value in [
        num(i64::MIN),
        Value::Null,
        Value::Ptr(Name::Glob(1), 65_536),
        Value::Ptr(Name::Lit(2, 3), 4),
        Value::Ptr(Name::Heap(u64::MAX), u32::MAX),
        Value::Free,
        Value::Held(255),
        Value::Undef,
    ] {
        let cell = Cell::new(Ty::Ptr(5), value);
        assert!(rt; cell.ty() == Ty::Ptr(5) && cell.value() == value);
        assert!(rt; cell.stored(Ty::Ptr(5)).map(|v| v.value()) == Some(value));
        assert!(rt; cell.stored(Ty::Ptr(4)).is_none() && cell.stored(Ty::Int).is_none());
        let kept = Stored::of(value);
        assert!(rt; kept.value() == value);
        assert!(rt; kept.number().is_some() == matches!(value, Value::Num(_)));
        assert!(rt; kept.defined().is_ok() == defined(value).is_ok());
        assert!(rt; kept.is_zero().ok() == is_zero(value).ok());
    }
}

#[test]
fn value_lists(rt: HostRuntime) -> Result<(), Fail> {
    let values = Values::from_vec([num(1), Value::Free].to_vec(rt.alloc())?);
    let copy = values.clone()?;
    assert_eq!(rt; (values.as_slice().len(), copy.into_vec().len()), (2, 2));
    Ok(())
}

#[test]
fn cell_lists(rt: HostRuntime) -> Result<(), Fail> {
    let cell = Cell::new(Ty::Char, Value::Undef);
    let mut cells = Cells::from_vec([cell].to_vec(rt.alloc())?);
    if cells.as_slice().len() == 1 {
        cells.set(0, Cell::new(Ty::Char, num(7)));
    }
    let copy = cells.clone()?.into_vec();
    assert_eq!(rt;
        (
            cells.as_slice().len(),
            copy.first().map(|cell| cell.value())
        ),
        (1, Some(num(7)))
    );
    Ok(())
}

#[test]
fn kept_local_lists(rt: HostRuntime) -> Result<(), Fail> {
    let local = KeptLocal {
        function: 0,
        local: 1,
        value: num(2),
    };
    let kept = KeptLocals::from_vec([local].to_vec(rt.alloc())?);
    let copy = kept.clone()?;
    assert_eq!(rt; (kept.as_slice().len(), copy.into_vec().len()), (1, 1));
    Ok(())
}

#[test]
fn piece_lists(rt: HostRuntime) -> Result<(), Fail> {
    let bytes = Text::from_vec(Vec::from_slice(rt.alloc(), b"a")?);
    let pieces = Pieces::from_vec(vec![in rt.alloc(); Piece::Bytes(bytes)]?);
    let count = pieces.as_slice().len();
    assert_eq!(rt; (count, pieces.into_vec().len()), (1, 1));
    Ok(())
}

#[test]
fn laws(_rt: HostRuntime) {
    division_law();
    type_law();
    store_law();
    release_law();
    heap_number_law();
    live_cells_law();
    shape_law();
    answers_law();
    mutex_law();
}
