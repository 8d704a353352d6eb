ghost use Rattle.std.specs.Prelude.{◌≡◌, ◌+◌, ◌%◌, ◌==◌};

use crate::{CoreCycle, CoreStep, Delay, Pair, Ring};

// What is pushed, and the values of the last two pushes after it, as by hand.
#[test]
fn ring_of_two(rt: HostRuntime) {
    let mut ring = Ring::<u8, 2>::new(9);
    assert_eq!(rt; (ring.back(1), ring.back(2)), (9, 9));
    for (x, newest, older) in [(5, 5, 9), (6, 6, 5), (7, 7, 6)] {
        ring.push(x);
        assert_eq!(rt;
            (ring.back(1), ring.back(2)),
            (newest, older),
            "at the push of {x}"
        );
    }
    ring.set_back(2, 4);
    assert_eq!(rt; (ring.back(1), ring.back(2)), (7, 4));
}

#[test]
fn ring_of_four(rt: HostRuntime) {
    let rows = [
        (5, [5, 9, 9, 9]),
        (6, [6, 5, 9, 9]),
        (7, [7, 6, 5, 9]),
        (8, [8, 7, 6, 5]),
        (1, [1, 8, 7, 6]),
    ];
    let mut ring = Ring::<u8, 4>::new(9);
    for (x, backs) in rows {
        ring.push(x);
        assert_eq!(rt;
            [ring.back(1), ring.back(2), ring.back(3), ring.back(4)],
            backs,
            "at the push of {x}"
        );
    }
    ring.set_back(3, 0);
    assert_eq!(rt;
        [ring.back(1), ring.back(2), ring.back(3), ring.back(4)],
        [1, 8, 0, 6]
    );
}

// A core that puts out how far it has counted, and counts on by its input.
#[derive(Clone, Copy)]
struct Counter {
    count: u8,
}

impl CoreStep for Counter {
    type In = u8;

    type Out = u8;

    ghost gives = { λ s i. s.count };

    ghost leaves = { λ s i. record { count = (s.count + i) % 256 } };

    ghost agree = { λ a b. a == b };

    fn out(&self, _i: &u8) -> u8 {
        self.count
    }

    fn advance(&mut self, i: &u8) {
        self.count = self.count.wrapping_add(*i);
    }

    fn same(a: &u8, b: &u8) -> bool {
        *a == *b
    }
}

// The input stands in the count's place until the cycle ends.
impl CoreCycle for Counter {
    ghost begun = { λ s i middle. middle.count ≡ i };

    fn begin(&mut self, i: &u8, o: &mut u8) {
        *o = self.count;
        self.count = *i;
    }

    fn finish(&mut self, _i: &u8, o: &u8) {
        self.count = self.count.wrapping_add(*o);
    }
}

fn counters(delay: Delay) -> Pair<Counter> {
    let counter = Counter { count: 10 };
    Pair::new(counter, counter, delay, 0, 0)
}

// One cycle with main's own output.
fn turn(pair: &mut Pair<Counter>, i: u8) -> bool {
    let o = pair.main().out(&i);
    pair.step(&i, &o)
}

// Main is changed before cycle 3, and told from cycle 6 on; the outputs of main alone are 10, 11, 13, 16, 20, 25, 31.
#[test]
fn told_three_cycles_later(rt: HostRuntime) {
    let rows = [
        (1, 10, 0, false),
        (2, 11, 1, false),
        (3, 13, 2, false),
        (4, 17, 2, false),
        (5, 21, 2, false),
        (6, 26, 2, false),
        (7, 32, 2, true),
        (8, 39, 2, true),
    ];
    let mut pair = counters(Delay::Two);
    assert_eq!(rt; pair.behind(), 2);
    for (i, output, age, told) in rows {
        if i == 4 {
            pair.main_mut().count = 17;
        }
        assert_eq!(rt; pair.main().count, output, "at cycle {i}");
        assert_eq!(rt; pair.age(), age, "at cycle {i}");
        assert_eq!(rt; turn(&mut pair, i), told, "at cycle {i}");
    }
}

// The same change with each delay: it is told one cycle more than the delay behind cycle 3.
#[test]
fn told_by_each_delay(rt: HostRuntime) {
    let rows = [(1, 5), (2, 6), (3, 7), (4, 8)];
    for (cycles, first) in rows {
        let mut pair = counters(Delay::of(cycles));
        assert_eq!(rt; pair.behind(), cycles);
        for i in 0..10 {
            if i == 3 {
                pair.main_mut().count = 17;
            }
            assert_eq!(rt;
                turn(&mut pair, i),
                i >= first,
                "at cycle {i} with {cycles}"
            );
        }
        assert_eq!(rt; pair.age(), cycles);
    }
}

// The first rows with each cycle made in two halves.
#[test]
fn told_of_halves(rt: HostRuntime) {
    let rows = [
        (1, 10, false),
        (2, 11, false),
        (3, 13, false),
        (4, 17, false),
        (5, 21, false),
        (6, 26, false),
        (7, 32, true),
        (8, 39, true),
    ];
    let mut pair = counters(Delay::Two);
    let (mut o, mut own) = (0, 0);
    for (i, output, told) in rows {
        if i == 4 {
            pair.main_mut().count = 17;
        }
        pair.begin(&i, &mut o);
        assert_eq!(rt; o, output, "at cycle {i}");
        assert_eq!(rt; pair.finish(&i, &o, &mut own), told, "at cycle {i}");
    }
}

#[test]
fn silent_without_a_change(rt: HostRuntime) {
    let mut pair = counters(Delay::Four);
    for i in [7, 0, 250, 1, 9, 3, 8, 2] {
        assert!(rt; !turn(&mut pair, i), "at the input {i}");
    }
}

// A change of the shadow, and of a delayed output, is told one cycle after it is compared; what is set to be told is
// told at once.
#[test]
fn told_of_the_observer(rt: HostRuntime) {
    let mut pair = counters(Delay::Two);
    for i in [1, 2, 3] {
        assert!(rt; !turn(&mut pair, i), "at the input {i}");
    }
    assert_eq!(rt; pair.behind(), 2);
    assert_eq!(rt; (pair.delay(0), pair.delay(1)), ((2, 11), (3, 13)));
    pair.set_delay(1, 3, 14);
    assert_eq!(rt; (pair.delay(0), pair.delay(1)), ((2, 11), (3, 14)));
    pair.set_age(3);
    assert_eq!(rt; pair.age(), 3);
    assert!(rt; !turn(&mut pair, 4));
    assert_eq!(rt; pair.age(), 2);
    assert!(rt; !turn(&mut pair, 5));
    assert!(rt; pair.told());
    assert!(rt; turn(&mut pair, 6));
    pair.shadow_mut().count = 0;
    assert!(rt; !turn(&mut pair, 7));
    assert!(rt; turn(&mut pair, 8));
    pair.set_told(false);
    assert!(rt; !turn(&mut pair, 9));
    let mut quiet = counters(Delay::One);
    quiet.set_told(true);
    assert!(rt; turn(&mut quiet, 1));
    assert!(rt; !turn(&mut quiet, 2));
}
