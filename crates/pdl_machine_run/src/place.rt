// Locations that a thread holds for writing, the youngest first.
ghost use Rattle.std.specs.Prelude.{◌≡◌, ◌≤◌, ◌<◌, ◌∷◌, map, vec_len, vec_capacity};
ghost use Rattle.pdl_semantics.specs.Machine as machine;
ghost use Rattle.pdl_machine_run.specs.View.{place_view};
ghost use Rattle.pdl_machine_run.specs.Places.{place_index};

/// A location: the numbers of its memory and of the variable of its address.
#[derive(Clone, Copy)]
pub struct LocationNumbers {
    pub mem: usize,
    pub var: usize,
}

// Where the location stands first, the number of all where it doesn't.
fn index_of(held: &[LocationNumbers], mem: usize, var: usize) -> usize
    ensures { result ≡ place_index (map place_view held.now) mem var }
{
    let mut i = 0;
    for place in held {
        if place.mem == mem && place.var == var {
            return i;
        }
        i += 1;
    }
    i
}

/// Whether the location is held.
pub fn is_held(held: &[LocationNumbers], mem: usize, var: usize) -> bool
    ensures { result ≡ machine.is_held (map place_view held.now) mem var }
{
    for place in held {
        if place.mem == mem && place.var == var {
            return true;
        }
    }
    false
}

/// The location is held from now on.
pub fn hold(held: &mut Vec<LocationNumbers>, mem: usize, var: usize)
    requires { vec_len held.old < vec_capacity held.old }
    ensures held { map place_view held.new.items
        ≡ record { mem = mem; var = var } ∷ map place_view held.old.items }
    ensures capacity { vec_capacity held.new ≡ vec_capacity held.old }
{
    match held.insert(0, LocationNumbers { mem, var }) {
        Ok(()) => {}
        Err(_) => unreachable!(),
    }
}

/// The location is let go.
pub fn let_go(held: &mut Vec<LocationNumbers>, mem: usize, var: usize)
    ensures held { map place_view held.new.items
        ≡ machine.let_go (map place_view held.old.items) mem var }
    ensures fewer { vec_len held.new ≤ vec_len held.old }
    ensures capacity { vec_capacity held.new ≡ vec_capacity held.old }
{
    let i = index_of(held.as_slice(), mem, var);
    if i < held.len() {
        held.remove(i);
    }
}
