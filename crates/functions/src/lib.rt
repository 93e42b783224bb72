// The functions of a text, one after the other, each with its scope and its costs.
#![tactic(auto)]

ghost use Rattle.std.specs.Prelude.{◌≡◌, [], ◌∷◌, ◌+◌, ◌≤◌, ◌<◌, length};
ghost use Rattle.costs.specs.Limits.{functions_most};
ghost use Rattle.tokens.specs.Tokens.{text_of};
ghost use Rattle.tokens.specs.Ties.Outcomes.{pos_is};
ghost use Rattle.scopes.specs.Scopes.{scope_sizes};
ghost use Rattle.function_costs.specs.FunctionCosts.{costs};
ghost use Rattle.placing.specs.Ties.Sheets.{drafted, Stays};
ghost use Rattle.functions.specs.Functions.{placed, function, functions};
ghost use Rattle.functions.specs.Ties.Scopes.{Told};

use answers::Refusal;
use costs::limits::{ARITY, SIZE};
use function_costs::read_costs;
use placing::Sheet;
use scopes::{fill_sizes, read_scope};
use stretches::dims::Dims;
use tokens::numbers::number_in;

// So many functions, and the position to read on from.
#[tactic(auto, unfolding(crate::specs::Functions::functions, tokens::specs::Steps::and_then))]
pub fn read_functions(
    draft: &mut Sheet,
    text: &[u8],
    at: usize,
    many: usize,
) -> Result<usize, Refusal>
    requires { draft.old.network.functions + many ≤ functions_most }
    ensures value { pos_is result (drafted draft.new) ≡ functions many (drafted draft.old) (text_of text.now) at }
    ensures stays { Stays draft.old draft.new }
{
    let mut next = at;
    for _ in 0..many {
        next = read_function(draft, text, next)?;
    }
    Ok(next)
}

// One function.
#[tactic(auto, unfolding(crate::specs::Functions::function, tokens::specs::Steps::and_then))]
fn read_function(draft: &mut Sheet, text: &[u8], at: usize) -> Result<usize, Refusal>
    requires { draft.old.network.functions < functions_most }
    ensures value { pos_is result (drafted draft.new) ≡ function (drafted draft.old) (text_of text.now) at }
    ensures stays { Stays draft.old draft.new }
{
    let found = number_in(text, at, 0, ARITY as u64)?;
    let arity = found.value as usize;
    let mut variables = [0u8; ARITY];
    let network = &draft.network;
    let next = read_scope(
        &mut variables,
        text,
        found.next,
        &network.sizes,
        network.vars,
        draft.entries,
        arity,
    )?;
    read_placed(draft, text, next, &variables[..arity])
}

// The costs of a function whose scope was read, put where they belong.
fn read_placed(draft: &mut Sheet, text: &[u8], at: usize, scope: &[u8]) -> Result<usize, Refusal>
    requires told { Told draft.old scope.now }
    requires functions_lt_functions_most { draft.old.network.functions < functions_most }
    ensures value { pos_is result (drafted draft.new)
        ≡ placed (drafted draft.old) scope.now (costs draft.old.network.top (scope_sizes draft.old.network.sizes scope.now) (text_of text.now) at) }
    ensures stays { Stays draft.old draft.new }
{
    match scope {
        [] => read_constant(draft, text, at),
        [x] => read_unary(draft, text, at, usize::from(*x)),
        _ => read_numbered(draft, text, at, scope),
    }
}

// Arity 0: into the constant.
fn read_constant(draft: &mut Sheet, text: &[u8], at: usize) -> Result<usize, Refusal>
    ensures value { pos_is result (drafted draft.new) ≡ placed (drafted draft.old) [] (costs draft.old.network.top [] (text_of text.now) at) }
    ensures stays { Stays draft.old draft.new }
{
    let mut cells = [0u64; 1];
    let next = read_costs(&mut cells, text, at, Dims { sizes: &[] }, draft.network.top)?;
    draft.put_constant(cells[0]);
    Ok(next)
}

// Arity 1: into the variable's unary costs.
fn read_unary(draft: &mut Sheet, text: &[u8], at: usize, x: usize) -> Result<usize, Refusal>
    requires { x < draft.old.network.vars }
    ensures value { pos_is result (drafted draft.new)
        ≡ placed (drafted draft.old) (x ∷ []) (costs draft.old.network.top (scope_sizes draft.old.network.sizes (x ∷ [])) (text_of text.now) at) }
    ensures stays { Stays draft.old draft.new }
{
    let size = draft.network.size(x);
    let mut cells = [0u64; SIZE];
    let cells = &mut cells[..size];
    let sizes = [size as u64];
    let next = read_costs(cells, text, at, Dims { sizes: &sizes }, draft.network.top)?;
    draft.put_unary(x, cells);
    Ok(next)
}

// Arity 2 and 3: a stretch of its own, lent to the filler alone.
fn read_numbered(draft: &mut Sheet, text: &[u8], at: usize, scope: &[u8]) -> Result<usize, Refusal>
    requires told { Told draft.old scope.now }
    requires functions_lt_functions_most { (draft.old.network.functions < functions_most) × (2 ≤ length scope.now) }
    ensures value { pos_is result (drafted draft.new)
        ≡ placed (drafted draft.old) scope.now (costs draft.old.network.top (scope_sizes draft.old.network.sizes scope.now) (text_of text.now) at) }
    ensures stays { Stays draft.old draft.new }
{
    let mut dims = [0u64; ARITY];
    fill_sizes(&mut dims, scope, &draft.network.sizes, scope.len());
    let ds = Dims {
        sizes: &dims[..scope.len()],
    };
    let many = ds.tuples();
    let start = draft.entries;
    let end = start + many;
    let next = read_costs(
        &mut draft.table[start..end],
        text,
        at,
        ds,
        draft.network.top,
    )?;
    draft.put_function(scope, many);
    Ok(next)
}
