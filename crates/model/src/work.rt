// A sound graph, and the units that it runs on.
ghost use Rattle.std.specs.Prelude.{length};
ghost use Rattle.model.specs.Graph.{Sound, BusySound, graph_of};

// What a schedule is made for: who waits goes by the delays, who runs by the busy times, and each type has a number of units.
#[derive(Clone, Copy)]
pub struct Work<'a> {
    pub delays: &'a [u8],
    pub busy: &'a [u8],
    pub types: &'a [u8],
    pub units: &'a [u8],
    pub from: &'a [u16],
    pub to: &'a [u16],
    pub ghost sound: { Sound (graph_of delays.now busy.now types.now (length units.now) from.now to.now) },
    pub ghost busy_sound: { BusySound (graph_of delays.now busy.now types.now (length units.now) from.now to.now) },
}
