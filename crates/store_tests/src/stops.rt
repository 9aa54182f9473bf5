//! Commands that are stopped, and the database is opened again.
use crate::files::{Image, Stopped, ask_in, empty_image, image_of, whole};
use crate::opening::{Asked, is_done, number_of, request_told, routes, seeded};
use crate::tables::Ask;
use crate::work::{Work, image_after, see_stops};
use crate::world::world_text;
use hall_desk::Desk;
use hall_http::Routes;
use hall_store::Store;
use std::alloc::AllocGlobal;
use std::process::Abort;

/// A round from a list of people to its publication: each of the nine commands that write, and two of them over what
/// stands there already.
const STEPS: &str = "\
0|0|dora-key|POST /people|name,key,roles~eve,eve-key-1,entrant~hal,hal-key-1,entrant+author~rex,rex-key-1,referee~
1|0|bob-key-1|PUT /puzzles/bob/p1|{\"text\":\"nurikabe/2/2/1i\"}
1|0|bob-key-1|PUT /puzzles/bob/p2|{\"text\":\"sudoku/4/4/v\"}
1|0|bob-key-1|PUT /puzzles/bob/p1|{\"text\":\"sudoku/4/4/123434122143432g\"}
4|0|bob-key-1|POST /puzzles/bob/p1/certificate|{\"budget\":200000}
5|0|dora-key|PUT /rounds/r1|version = 3~title = \"Draft\"~start = \"2026-05-02T09:00:00\"~zone = \"UTC0\"~minutes = 20~\
protest_minutes = 10~mode = \"sealed\"~penalty = 0~bonus = 0~testers = [\"gil\", \"fay\"]~\
puzzle = [{author = \"bob\", label = \"p2\", points = 30}, {author = \"bob\", label = \"p1\", points = 20}]~
5|0|dora-key|PUT /rounds/r1|version = 3~title = \"Morning\"~start = \"2026-05-02T09:00:00\"~zone = \"UTC0\"~\
minutes = 60~protest_minutes = 30~mode = \"instant\"~penalty = 5~bonus = 2~testers = [\"rex\", \"fay\"]~\
puzzle = [{author = \"bob\", label = \"p1\", points = 40}]~
6|0|dora-key|POST /rounds/r1/release|
9|1777712500|eve-key-1|PUT /rounds/r1/answers/1/k1|{\"answer\":\"1234341221434321\"}
12|1777716000|eve-key-1|PUT /rounds/r1/protests/w1|{\"number\":1,\"text\":\"unclear\"}
14|1777716100|rex-key-1|PUT /rounds/r1/rulings/eve/w1|{\"points\":-5,\"upheld\":true}
15|1777720000|dora-key|POST /rounds/r1/publish|";

/// The lines of the world, each with the first and the last number of steps after which it stands.
const WORLDS: &str = "\
0 12 person ada ada-key-1 author entrant
0 12 person bob bob-key-1 author
0 12 person dora dora-key director
0 12 person eve eve-key-1 entrant
0 12 person fay fay-key-1 entrant
0 12 person gil gil-key-1 referee entrant
1 12 person hal hal-key-1 author entrant
0 12 person rex rex-key-1 referee
2 3 puzzle bob p1 nurikabe/2/2/1i new
4 4 puzzle bob p1 sudoku/4/4/123434122143432g new
5 12 puzzle bob p1 sudoku/4/4/123434122143432g 1234341221434321
3 12 puzzle bob p2 sudoku/4/4/v new
6 6 round r1 Draft 1777712400 20 10 sealed 0 0
6 6 place bob p2 30
6 6 place bob p1 20
6 6 testers fay gil
7 7 round r1 Morning 1777712400 60 30 instant 5 2
8 11 round r1 Morning 1777712400 60 30 instant 5 2 released
12 12 round r1 Morning 1777712400 60 30 instant 5 2 released published
7 12 place bob p1 40
7 12 testers fay rex
9 12 answer eve 1 k1 1 1777712500 1234341221434321 0
10 10 protest eve w1 1 unclear open 0
11 12 protest eve w1 1 unclear upheld -5";

/// The line of the world that a row tells, where it stands after so many steps.
fn line_after<'a>(rt: &impl Abort, row: &'a str, steps: u64) -> Option<&'a str> {
    let (first, rest) = row.split_once(' ').expect(rt, "first");
    let (last, line) = rest.split_once(' ').expect(rt, "last");
    if number_of(rt, first) <= steps && steps <= number_of(rt, last) {
        Some(line)
    } else {
        None
    }
}

/// The world after so many steps, as a text.
fn world_after(rt: &(impl AllocGlobal + Abort), steps: u64) -> String {
    let mut world = String::new(rt.alloc());
    for row in WORLDS.lines() {
        if let Some(line) = line_after(rt, row, steps) {
            world.push_str("\n").expect(rt, "memory");
            world.push_str(line).expect(rt, "memory");
        }
    }
    world
}

/// Whether the text tells the world after so many steps.
fn is_world(rt: &(impl AllocGlobal + Abort), text: &str, steps: u64) -> bool {
    world_after(rt, steps).as_str() == text
}

/// The world that a hall tells.
#[derive(Drop)]
struct Telling {
    world: String,
}

impl Ask for Telling {
    fn ask<S: Store, R: AllocGlobal + Abort>(&mut self, rt: &R, mut store: S) {
        self.world = world_text(rt, &mut store);
    }
}

/// The world in the files, which are opened again.
pub(crate) fn world_in(rt: &(impl AllocGlobal + Abort), image: &Image) -> String {
    let mut files = whole(rt, image);
    let mut telling = Telling {
        world: String::new(rt.alloc()),
    };
    let is_opened = ask_in(rt, &mut files, &mut telling);
    assert!(rt; is_opened, "opened again");
    telling.world
}

/// A command, and whether a hall acknowledged it.
#[derive(Clone, Copy)]
struct Asking<'a> {
    routes: &'a Routes,
    asked: Asked<'a>,
    is_acknowledged: bool,
}

impl Ask for Asking<'_> {
    fn ask<S: Store, R: AllocGlobal + Abort>(&mut self, rt: &R, store: S) {
        let (routes, asked) = (self.routes, self.asked);
        let mut desk = Desk::new(store);
        self.is_acknowledged = is_done(rt, routes, &mut desk, &asked);
        desk.into_store();
    }
}

/// A command, and how many steps were taken before it.
#[derive(Clone, Copy)]
struct Step<'a> {
    routes: &'a Routes,
    asked: Asked<'a>,
    steps: u64,
}

impl Work for Step<'_> {
    fn name(&self) -> &str {
        self.asked.line
    }

    fn is_told<R: AllocGlobal + Abort>(&self, rt: &R, files: &mut Stopped) -> bool {
        let mut asking = Asking {
            routes: self.routes,
            asked: self.asked,
            is_acknowledged: false,
        };
        ask_in(rt, files, &mut asking) && asking.is_acknowledged
    }

    fn is_kept<R: AllocGlobal + Abort>(&self, rt: &R, left: &Image) -> bool {
        let world = world_in(rt, left);
        let is_kept = is_world(rt, world.as_str(), self.steps.saturating_add(1));
        let is_before = is_world(rt, world.as_str(), self.steps);
        assert!(rt; is_kept || is_before, "{}: {world}", self.asked.line);
        is_kept
    }
}

/// Puts the first people into a hall.
#[derive(Clone, Copy)]
struct Seeding;

impl Ask for Seeding {
    fn ask<S: Store, R: AllocGlobal + Abort>(&mut self, rt: &R, store: S) {
        seeded(rt, store).into_store();
    }
}

/// The files of the hall before its first command.
fn first_image(rt: &(impl AllocGlobal + Abort)) -> Image {
    let mut files = whole(rt, &empty_image(rt));
    let is_made = ask_in(rt, &mut files, &mut Seeding);
    assert!(rt; is_made, "tables");
    image_of(rt, &files)
}

/// Takes all steps, and stops those from the first place up to the last one.
fn see_steps(rt: &(impl AllocGlobal + Abort), first: u64, last: u64) {
    let routes = routes(rt);
    let mut image = first_image(rt);
    let mut steps: u64 = 0;
    for row in STEPS.lines() {
        let step = Step {
            routes: &routes,
            asked: request_told(rt, row),
            steps,
        };
        if first <= steps && steps <= last {
            see_stops(rt, &step, &image);
        }
        image = image_after(rt, &step, &image);
        steps = steps.saturating_add(1);
    }
}

#[test]
fn a_stop_leaves_the_people_and_puzzles_before_or_after(rt: HostRuntime) {
    see_steps(&rt, 0, 3);
}

#[test]
fn a_stop_leaves_the_rounds_before_or_after(rt: HostRuntime) {
    see_steps(&rt, 4, 7);
}

#[test]
fn a_stop_leaves_the_answers_and_protests_before_or_after(rt: HostRuntime) {
    see_steps(&rt, 8, 11);
}
