// A class set is a word in which each class has a place of its own, at most 24 of them.
ghost use Rattle.std.specs.Prelude.{◌≡◌, ◌<◌};
ghost use Rattle.records.specs.Layout.{max_classes};
ghost use Rattle.chase.specs.ClassSet.{place as place_of, meets as meets_in, has as has_in};
ghost use Rattle.chase.specs.Axioms.{only as only_if};

// The set of the class alone.
pub fn place(class: usize) -> u32
    requires { class < max_classes }
    ensures { result ≡ place_of class }
{
    1 << class
}

// The two sets share a class.
pub fn meets(c: u32, d: u32) -> bool
    ensures { result ≡ meets_in c d }
{
    (c & d) != 0
}

// The digit of the class's place is 1.
pub fn has(set: u32, class: usize) -> bool
    requires { class < max_classes }
    ensures { result ≡ has_in set class }
{
    (set >> class) % 2 == 1
}

// The set of the class, if the test passes.
pub fn place_if(test: bool, class: usize) -> u32
    requires { class < max_classes }
    ensures { result ≡ only_if test (place_of class) }
{
    if test { place(class) } else { 0 }
}
