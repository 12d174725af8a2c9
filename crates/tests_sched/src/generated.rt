//! The texts of the generated job.

use kt_sched::generate;
use std::alloc::Global;
use std::test::Fail;

fn expect(text: &[u8], wanted: &str) -> Result<(), Fail> {
    if text != wanted.as_bytes() {
        return Err(Fail::from("another text"));
    }
    Ok(())
}

#[test]
fn texts_of_the_versions(rt: HostRuntime) -> Result<(), Fail> {
    let alloc: Global = rt.alloc();
    let job = generate(alloc, 1)?;
    expect(job.first.as_bytes(), FIRST)?;
    expect(
        job.rules.as_bytes(),
        "INIT struct node.hits: { $out = 1; }\n",
    )?;
    expect(job.second.as_bytes(), SECOND)?;
    expect(job.input.as_bytes(), "0 0\n")
}

// 50 keys and 10 amounts.
#[test]
fn commands_go_round(rt: HostRuntime) -> Result<(), Fail> {
    let alloc: Global = rt.alloc();
    expect(
        generate(alloc, 12)?.input.as_bytes(),
        "0 0\n1 1\n2 2\n3 3\n4 4\n5 5\n6 6\n7 7\n8 8\n9 9\n10 0\n11 1\n",
    )?;
    let job = generate(alloc, 52)?;
    let input = job.input.as_bytes();
    if input.len() < 18 {
        return Err(Fail::from("too few commands"));
    }
    expect(&input[input.len() - 18..], "48 8\n49 9\n0 0\n1 1\n")
}

// 400 rounds of 50 commands, each of 10 commands of 4 bytes and 40 of 5.
#[test]
fn most_commands(rt: HostRuntime) -> Result<(), Fail> {
    let alloc: Global = rt.alloc();
    let job = generate(alloc, 20_000)?;
    if job.input.as_bytes().len() != 96_000 {
        return Err(Fail::from("another length"));
    }
    Ok(())
}

const FIRST: &str = r#"#include <stdio.h>
struct node { int key; long sum; struct node *next; };
struct node *table[16];
pthread_mutex_t input_lock;
pthread_mutex_t table_lock;
int finished;

int number(void) {
  int c = getchar(), n = 0;
  if (c == EOF) { return -1; }
  while (c != ' ' && c != '\n' && c != EOF) {
    n = n * 10 + (c - '0');
    c = getchar();
  }
  return n;
}

void worker(int id) {
  int key, amount;
  struct node *p;
  while (1) {
    kitsune_update("work");
    pthread_mutex_lock(&input_lock);
    key = number();
    if (key >= 0) { amount = number(); }
    pthread_mutex_unlock(&input_lock);
    if (key < 0) { break; }
    pthread_mutex_lock(&table_lock);
    p = table[key % 16];
    while (p && p->key != key) { p = p->next; }
    if (!p) {
      p = malloc(sizeof(struct node));
      p->key = key;
      p->sum = 0;
      p->next = table[key % 16];
      table[key % 16] = p;
    }
    p->sum += amount;
    pthread_mutex_unlock(&table_lock);
  }
  pthread_mutex_lock(&table_lock);
  finished++;
  pthread_mutex_unlock(&table_lock);
}

int main(void) {
  int i, keys = 0;
  long sum = 0;
  struct node *p;
  kitsune_do_automigrate();
  if (!kitsune_is_updating()) {
    puts("start");
    for (i = 0; i < 4; i++) { ktthread_create(worker, i); }
  }
  while (finished < 4) { kitsune_update("wait"); }
  for (i = 0; i < 16; i++) {
    p = table[i];
    while (p) { keys++; sum += p->sum; p = p->next; }
  }
  printf("version 1 keys %d sum %ld\n", keys, sum);
  return 0;
}
"#;

const SECOND: &str = r#"#include <stdio.h>
struct node { int key; long sum; int hits; struct node *next; };
struct node *table[16];
pthread_mutex_t input_lock;
pthread_mutex_t table_lock;
int finished;

int number(void) {
  int c = getchar(), n = 0;
  if (c == EOF) { return -1; }
  while (c != ' ' && c != '\n' && c != EOF) {
    n = n * 10 + (c - '0');
    c = getchar();
  }
  return n;
}

void worker(int id) {
  int key, amount;
  struct node *p;
  while (1) {
    kitsune_update("work");
    pthread_mutex_lock(&input_lock);
    key = number();
    if (key >= 0) { amount = number(); }
    pthread_mutex_unlock(&input_lock);
    if (key < 0) { break; }
    pthread_mutex_lock(&table_lock);
    p = table[key % 16];
    while (p && p->key != key) { p = p->next; }
    if (!p) {
      p = malloc(sizeof(struct node));
      p->key = key;
      p->sum = 0;
      p->hits = 0;
      p->next = table[key % 16];
      table[key % 16] = p;
    }
    p->sum += amount;
    p->hits++;
    pthread_mutex_unlock(&table_lock);
  }
  pthread_mutex_lock(&table_lock);
  finished++;
  pthread_mutex_unlock(&table_lock);
}

int main(void) {
  int i, keys = 0;
  long sum = 0;
  struct node *p;
  kitsune_do_automigrate();
  if (!kitsune_is_updating()) {
    puts("start");
    for (i = 0; i < 4; i++) { ktthread_create(worker, i); }
  }
  while (finished < 4) { kitsune_update("wait"); }
  for (i = 0; i < 16; i++) {
    p = table[i];
    while (p) { keys++; sum += p->sum; p = p->next; }
  }
  printf("version 2 keys %d sum %ld\n", keys, sum);
  return 0;
}
"#;
