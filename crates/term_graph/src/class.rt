//! What is kept of a class, at its root.
ghost use Rattle.std.specs.Prelude.{◌≡◌, ◌<◌, ◌+◌, ◌^◌, length};
ghost use Rattle.std.specs.List.{AllByRecursion};
ghost use Rattle.term_graph.specs.Classes.{class_at, weighed, lightened, merged};

use flat_form::Args;

/// The least variable of a class, and how many cells its ring has. It counts at roots.
#[derive(Clone, Copy)]
pub struct Class {
    pub least: usize,
    pub weight: usize,
}

/// A cell more in the class of each of these roots.
pub fn weigh(classes: &mut Vec<Class>, roots: &Args)
    requires { AllByRecursion (λ r. (r < length classes.old.items) × ((class_at classes.old.items r).weight + length roots.now < 2 ^ 64)) roots.now }
    ensures { classes.new.items ≡ weighed roots.now classes.old.items }
{
    for i in 0..roots.len() {
        let root = *roots.get(i);
        classes[root].weight += 1;
    }
}

/// A cell less in the class of each of these roots.
pub fn lighten(classes: &mut Vec<Class>, roots: &Args)
    requires { AllByRecursion (λ r. r < length classes.old.items) roots.now }
    ensures { classes.new.items ≡ lightened roots.now classes.old.items }
{
    let mut left = roots.len();
    while left > 0 {
        left -= 1;
        let root = *roots.get(left);
        classes[root].weight = classes[root].weight.saturating_sub(1);
    }
}

/// The class of v joins that of w.
pub fn merge(classes: &mut Vec<Class>, v: usize, w: usize)
    requires v_in { v < length classes.old.items }
    requires w_in { w < length classes.old.items }
    requires room { (class_at classes.old.items v).weight + (class_at classes.old.items w).weight < 2 ^ 64 }
    ensures { classes.new.items ≡ merged v w classes.old.items }
{
    let one = classes[v];
    let other = classes[w];
    classes[w] = Class {
        least: one.least.min(other.least),
        weight: one.weight + other.weight,
    };
}
