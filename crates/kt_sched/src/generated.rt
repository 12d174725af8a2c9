//! The generated job: a server-like program of two versions, and commands for it.

ghost use Rattle.std.specs.Prelude.{◌≡◌, ◌++◌, IfOk, OnOk, map};
ghost use Rattle.kt_sched.specs.GeneratedJob as spec;

use kt_text::push_number;
use kt_types::Text;
use std::alloc::{AllocError, Global};

/// The texts of a job of two versions: four threads read commands, each a key and an amount, and sum up the amounts by key.
#[derive(Drop)]
pub struct Generated {
    /// The first version.
    pub first: Text,
    /// The rule file between the versions.
    pub rules: Text,
    /// The second version, which counts the commands of each key too.
    pub second: Text,
    /// The commands.
    pub input: Text,
}

/// The job of `n` commands.
pub fn generate(alloc: Global, n: u32) -> Result<Generated, AllocError>
    ensures first { IfOk result (λ job. job.first ≡ spec.first_version) }
    ensures rules { IfOk result (λ job. job.rules ≡ spec.rules) }
    ensures second { IfOk result (λ job. job.second ≡ spec.second_version) }
    ensures input { IfOk result (λ job. job.input ≡ spec.commands n) }
{
    Ok(Generated {
        first: first_version(alloc)?,
        rules: rules(alloc)?,
        second: second_version(alloc)?,
        input: commands(alloc, n)?,
    })
}

fn first_version(alloc: Global) -> Result<Text, AllocError>
    ensures { IfOk result (λ text. text ≡ spec.first_version) }
{
    version(alloc, "", "", "", "1")
}

fn second_version(alloc: Global) -> Result<Text, AllocError>
    ensures { IfOk result (λ text. text ≡ spec.second_version) }
{
    version(
        alloc,
        "int hits; ",
        "      p->hits = 0;\n",
        "    p->hits++;\n",
        "2",
    )
}

fn rules(alloc: Global) -> Result<Text, AllocError>
    ensures { IfOk result (λ text. text ≡ spec.rules) }
{
    joined(alloc, &["INIT struct node.hits: { $out = 1; }\n"])
}

// A version: the field that it adds to a node, the line that sets it for a new key, the line that counts in it, and the
// version's number.
fn version(
    alloc: Global,
    field: &str,
    setting: &str,
    counting: &str,
    number: &str,
) -> Result<Text, AllocError>
    ensures { IfOk result (λ text. text ≡ spec.version_text field.now setting.now counting.now number.now) }
{
    joined(
        alloc,
        &[
            "#include <stdio.h>\nstruct node { int key; long sum; ",
            field,
            "struct node *next; };\n",
            UP_TO_A_NEW_KEY,
            setting,
            UP_TO_THE_SUM,
            counting,
            UP_TO_THE_SUMMARY,
            "  printf(\"version ",
            number,
            " keys %d sum %ld\\n\", keys, sum);\n  return 0;\n}\n",
        ],
    )
}

// The pieces, one after the other.
fn joined(alloc: Global, pieces: &[&str]) -> Result<Text, AllocError>
    ensures { IfOk result (λ text. text ≡ spec.joined (map (λ piece. piece.now) pieces.now)) }
{
    let mut text = Vec::new(alloc);
    for piece in pieces {
        text.extend_from_slice(piece.as_bytes())?;
    }
    Ok(Text::from_vec(text))
}

fn commands(alloc: Global, n: u32) -> Result<Text, AllocError>
    ensures { IfOk result (λ text. text ≡ spec.commands n) }
{
    let mut text = Vec::new(alloc);
    for i in 0..n {
        push_command(&mut text, i)?;
    }
    Ok(Text::from_vec(text))
}

fn push_command(text: &mut Vec<u8>, i: u32) -> Result<(), AllocError>
    ensures { OnOk result (text.new.items ≡ text.old.items ++ spec.command i) }
{
    push_number(text, i64::from(i % 50))?;
    text.push(b' ')?;
    push_number(text, i64::from(i % 10))?;
    text.push(b'\n')?;
    Ok(())
}

// A version behind its struct, up to where a new key gets its sum.
const UP_TO_A_NEW_KEY: &str = r#"struct node *table[16];
pthread_mutex_t input_lock;
pthread_mutex_t table_lock;
int finished;

int number(void) {
  int c = getchar(), n = 0;
  if (c == EOF) { return -1; }
  while (c != ' ' && c != '\n' && c != EOF) {
    n = n * 10 + (c - '0');
    c = getchar();
  }
  return n;
}

void worker(int id) {
  int key, amount;
  struct node *p;
  while (1) {
    kitsune_update("work");
    pthread_mutex_lock(&input_lock);
    key = number();
    if (key >= 0) { amount = number(); }
    pthread_mutex_unlock(&input_lock);
    if (key < 0) { break; }
    pthread_mutex_lock(&table_lock);
    p = table[key % 16];
    while (p && p->key != key) { p = p->next; }
    if (!p) {
      p = malloc(sizeof(struct node));
      p->key = key;
      p->sum = 0;
"#;

// From there on, up to where an amount is added.
const UP_TO_THE_SUM: &str = r#"      p->next = table[key % 16];
      table[key % 16] = p;
    }
    p->sum += amount;
"#;

// From there on, up to the summary.
const UP_TO_THE_SUMMARY: &str = r#"    pthread_mutex_unlock(&table_lock);
  }
  pthread_mutex_lock(&table_lock);
  finished++;
  pthread_mutex_unlock(&table_lock);
}

int main(void) {
  int i, keys = 0;
  long sum = 0;
  struct node *p;
  kitsune_do_automigrate();
  if (!kitsune_is_updating()) {
    puts("start");
    for (i = 0; i < 4; i++) { ktthread_create(worker, i); }
  }
  while (finished < 4) { kitsune_update("wait"); }
  for (i = 0; i < 16; i++) {
    p = table[i];
    while (p) { keys++; sum += p->sum; p = p->next; }
  }
"#;
