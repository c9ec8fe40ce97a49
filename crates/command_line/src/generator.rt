//! The source that `work SEED COUNT` compiles.

ghost use Rattle.std.specs.Prelude.{◌≡◌, ◌++◌, decimal, IfOk, OnOk};
ghost use Rattle.command_line.specs.Generator.{byte_text, call_text, calls_text, filled, function_text};
ghost use Rattle.command_line.specs.Generator.{functions_text, length_of, main_text, next_state, start_text};
ghost use Rattle.command_line.specs.Generator.{template_of, template_text, work_source};

use itoa::Buffer;
use std::alloc::{AllocError, Global};

/// What a function of the source works on.
#[derive(Clone, Copy)]
pub enum Template {
    /// A list on the heap, which is built and freed.
    LinkedList,
    /// A square array of arrays.
    Matrix,
    /// Strings, by the library.
    Strings,
    /// A table of two functions, which are called in turn.
    FunctionTable,
}

/// The source that `work SEED COUNT` compiles: COUNT functions, each of a template and with loops of a length that the
/// seed draws, and a `main` that calls them in turn and prints what each gives (`specs/Generator.antt`, *Sources that a
/// seed draws* in `docs/FORMATS.md`). The error is that there is no memory for it.
#[tactic(auto, unfolding(crate::specs::Generator::work_source))]
pub fn work_source(alloc: Global, seed: u64, count: u64) -> Result<Vec<u8>, AllocError>
    ensures { IfOk result (λ text. text.items ≡ work_source seed count) }
{
    let mut text = Vec::from_slice(alloc, b"struct n{int v;struct n*q;};\n")?;
    put_functions(&mut text, seed, count)?;
    put_main(&mut text, seed, count)?;
    Ok(text)
}

fn put_functions(text: &mut Vec<u8>, seed: u64, count: u64) -> Result<(), AllocError>
    ensures { OnOk result (text.new.items ≡ text.old.items ++ functions_text seed count) }
{
    let mut state = seed;
    for number in 0..count {
        state = next_state(state);
        put_function(text, number, state)?;
    }
    Ok(())
}

// Puts the functions that a state draws, with this number.
fn put_function(text: &mut Vec<u8>, number: u64, state: u64) -> Result<(), AllocError>
    ensures { OnOk result (text.new.items ≡ text.old.items ++ function_text number state) }
{
    put_filled(text, Template::of(state).text(), number, length_of(state))
}

#[tactic(auto, unfolding(crate::specs::Generator::main_text))]
fn put_main(text: &mut Vec<u8>, seed: u64, count: u64) -> Result<(), AllocError>
    ensures { OnOk result (text.new.items ≡ text.old.items ++ main_text seed count) }
{
    put_start(text, seed % 1000)?;
    put_calls(text, count)?;
    text.extend_from_slice(b"return 0;}\n")
}

#[tactic(auto, unfolding(crate::specs::Generator::start_text))]
fn put_start(text: &mut Vec<u8>, argument: u64) -> Result<(), AllocError>
    ensures { OnOk result (text.new.items ≡ text.old.items ++ start_text argument) }
{
    text.extend_from_slice(b"int main(void){int s=")?;
    put_number(text, argument)?;
    text.extend_from_slice(b";")?;
    Ok(())
}

fn put_calls(text: &mut Vec<u8>, count: u64) -> Result<(), AllocError>
    ensures { OnOk result (text.new.items ≡ text.old.items ++ calls_text count) }
{
    for number in 0..count {
        put_call(text, number)?;
    }
    Ok(())
}

#[tactic(auto, unfolding(crate::specs::Generator::call_text))]
fn put_call(text: &mut Vec<u8>, number: u64) -> Result<(), AllocError>
    ensures { OnOk result (text.new.items ≡ text.old.items ++ call_text number) }
{
    text.extend_from_slice(b"s=f")?;
    put_number(text, number)?;
    text.extend_from_slice(b"(s);printf(\"%d\\n\",s);")
}

// Puts a template with the number of its function and the length of its loops.
fn put_filled(
    text: &mut Vec<u8>,
    template: &[u8],
    number: u64,
    length: u64,
) -> Result<(), AllocError>
    ensures { OnOk result (text.new.items ≡ text.old.items ++ filled number length template.now) }
{
    for byte in template {
        put_byte(text, *byte, number, length)?;
    }
    Ok(())
}

#[tactic(auto, unfolding(crate::specs::Generator::byte_text))]
fn put_byte(text: &mut Vec<u8>, byte: u8, number: u64, length: u64) -> Result<(), AllocError>
    ensures { OnOk result (text.new.items ≡ text.old.items ++ byte_text number length byte) }
{
    match byte {
        b'I' => put_number(text, number),
        b'K' => put_number(text, length),
        _ => {
            text.push(byte)?;
            Ok(())
        }
    }
}

fn put_number(text: &mut Vec<u8>, number: u64) -> Result<(), AllocError>
    ensures { OnOk result (text.new.items ≡ text.old.items ++ decimal number) }
{
    let mut digits = Buffer::new();
    text.extend_from_slice(digits.format(number).as_bytes())
}

// The state of the generator behind a state.
#[tactic(auto, using(crate::proofs::Congruence::sum_wraps), unfolding(crate::specs::Generator::next_state))]
fn next_state(state: u64) -> u64
    ensures { result ≡ next_state state }
{
    state
        .wrapping_mul(6364136223846793005)
        .wrapping_add(1442695040888963407)
}

// How long the loops of the function are that a state draws.
#[tactic(auto, unfolding(crate::specs::Generator::length_of))]
fn length_of(state: u64) -> u64
    ensures { result ≡ length_of state }
{
    2 + (state >> 33) / 4 % 15
}

impl Template {
    // The one that a state draws.
    #[tactic(auto, unfolding(crate::specs::Generator::template_of))]
    fn of(state: u64) -> Template
        ensures { result ≡ template_of state }
    {
        match (state >> 33) % 4 {
            0 => Template::LinkedList,
            1 => Template::Matrix,
            2 => Template::Strings,
            _ => Template::FunctionTable,
        }
    }

    // Its text.
    #[tactic(auto, unfolding(crate::specs::Generator::template_text))]
    fn text(self) -> &'static [u8]
        ensures { result.now ≡ template_text self }
    {
        match self {
            Template::LinkedList => LINKED_LIST,
            Template::Matrix => MATRIX,
            Template::Strings => STRINGS,
            Template::FunctionTable => FUNCTION_TABLE,
        }
    }
}

// In each an `I` stands for the number of the function, a `K` for the length of its loops.

const LINKED_LIST: &[u8] = b"\
    int fI(int a){struct n*h=0;int i;for(i=0;i<K;i++)\
    {struct n*m=malloc(sizeof(struct n));m->v=a+i;m->q=h;h=m;}\
    int s=0;while(h){struct n*m=h->q;s=s*3+h->v;free(h);h=m;}return s;}\n";

const MATRIX: &[u8] = b"\
    int fI(int a){int x[K][K];int i;int j;int s=0;\
    for(i=0;i<K;i++)for(j=0;j<K;j++)x[i][j]=a+i*j;\
    for(i=0;i<K;i++)for(j=0;j<K;j++)s=s+x[i][j]*x[j][i];return s;}\n";

const STRINGS: &[u8] = b"\
    int fI(int a){char b[64];char c[64];int i;for(i=0;i<K;i++)b[i]=97+(a+i&15);\
    strcpy(c,b);strcat(c,b);return strlen(c)+strcmp(b,c);}\n";

const FUNCTION_TABLE: &[u8] = b"\
    int gI(int a){return a*K+1;}\n\
    int hI(int a){return a-K;}\n\
    int fI(int a){int(*t[2])(int);int i;t[0]=gI;t[1]=hI;for(i=0;i<K;i++)a=t[i%2](a);return a;}\n";
