//! Opening the channels of a run with all their ends.
ghost use Rattle.std.specs.Prelude.{◌≡◌, ℕ, ◌+◌, ◌<◌, ◌≤◌, ◌++◌, List, [], ◌∷◌, length, IfOk, map};
ghost use Rattle.onfi_seq.specs.Sequencer.{AreFreshPosters, IsFreshIntake};
ghost use Rattle.onfi_script.specs.declared.row.Row.{Row as ARow};
ghost use Rattle.onfi_run.specs.Answers.{awaiting};
ghost use Rattle.onfi_run.specs.ByHost.{host_numbers, with_each};
ghost use Rattle.onfi_run.specs.Keys.{AreEndsOf, AreLinked, ports_of};
ghost use Rattle.onfi_run.specs.Opening.{AreNew, AreNewPorts, AreOpened, AreOpenedOn, IsOpened, lane_queues};
ghost use Rattle.onfi_run.specs.Arriving.{expected_on};
ghost use Rattle.onfi_run.specs.Setup.{channels_in};

use crate::answers::Answers;
use crate::channel_end::ChannelEnd;
use crate::chip::chip_of;
use crate::gated::Gated;
use crate::lane::Lane;
use crate::pace::Pace;
use crate::port::Port;
use crate::setup::setup_of;
use crate::stated::StatedDevice;
use crate::station::{Station, split_hosts};
use crate::way::Way;
use onfi_core::Setup;
use onfi_plan::Planner;
use onfi_queue::{Host, Intake};
use onfi_record::Recorder;
use onfi_reply::{Inbox, Poster};
use onfi_script::Row;
use onfi_seq::{Ends, Gate, Sequencer};
use std::alloc::{AllocError, Global};

/// The channels of a run, and its four hosts with their ends, in the order of their numbers.
#[derive(Drop)]
pub(crate) struct Stage<P: Planner + Drop, G: Gate + Drop> {
    pub(crate) lanes: Vec<Lane<Gated<P, G>>>,
    pub(crate) stations: [Station; 4],
}

/// A port with these places for answers, where nothing is left out.
fn port(host: Host, inbox: Inbox, answers: Answers) -> Port
    ensures host { result.host ≡ host }
    ensures inbox { result.inbox ≡ inbox }
    ensures answers { result.answers ≡ answers }
{
    Port {
        host,
        inbox,
        answers,
        left_out: false,
    }
}

/// The lane of a channel that goes that way with its gate, over a chip that the rows describe, with these ends of its queues.
fn open_lane<P: Planner + Drop, G: Gate + Drop>(
    alloc: Global,
    setup: Setup,
    rows: &[Row],
    channel: u8,
    way: Way<P>,
    gate: G,
    intake: Intake,
    posters: [Poster; 4],
) -> Result<Lane<Gated<P, G>>, AllocError>
    requires hosts { setup.hosts ≡ 4 }
    requires channel { channel < setup.channels }
    requires intake { IsFreshIntake setup channel intake }
    requires posters { AreFreshPosters setup channel posters }
    ensures opened { IfOk result (λ lane. IsOpened setup rows.now channel gate lane) }
    ensures intake { IfOk result (λ lane. lane.channel.sequencer.0.intake ≡ intake) }
    ensures posters { IfOk result (λ lane. lane.channel.sequencer.0.posters ≡ posters) }
{
    let chip = chip_of(alloc, &setup, rows, channel)?;
    let chip = Recorder::new(alloc, chip, setup.geometry, setup.timing, way.is_traced);
    let sequencer = Sequencer::open_with(
        alloc,
        setup,
        channel,
        way.planner,
        chip,
        intake,
        posters,
    )?;
    Ok(Lane {
        channel: Gated { sequencer, gate },
        ended: ChannelEnd::Unfinished,
        refusals: 0,
        pace: Pace::new(),
    })
}

/// Places for the answers to the operations of each host on a channel, in the order of their rows.
fn places(alloc: Global, rows: &[Row], channel: u8) -> Result<[Answers; 4], AllocError>
    ensures { IfOk result (λ all. all ≡ map (λ host. awaiting (expected_on rows.now host channel)) host_numbers) }
{
    Ok([
        Answers::await_answers(alloc, rows, 0, channel)?,
        Answers::await_answers(alloc, rows, 1, channel)?,
        Answers::await_answers(alloc, rows, 2, channel)?,
        Answers::await_answers(alloc, rows, 3, channel)?,
    ])
}

/// The ports of the four hosts on a channel, which have these ends and these places for answers.
fn ports(hosts: [Host; 4], inboxes: [Inbox; 4], answers: [Answers; 4]) -> [Port; 4]
    ensures hosts { map (λ p. p.host) result ≡ hosts }
    ensures inboxes { map (λ p. p.inbox) result ≡ inboxes }
    ensures answers { map (λ p. p.answers) result ≡ answers }
{
    let [h0, h1, h2, h3] = hosts;
    let [i0, i1, i2, i3] = inboxes;
    let [a0, a1, a2, a3] = answers;
    [
        port(h0, i0, a0),
        port(h1, i1, a1),
        port(h2, i2, a2),
        port(h3, i3, a3),
    ]
}

/// Opens a channel that goes that way with its gate: its lane, and the ports of the four hosts.
fn open_channel<P: Planner + Drop, G: Gate + Drop>(
    alloc: Global,
    setup: Setup,
    rows: &[Row],
    channel: u8,
    way: Way<P>,
    gate: G,
) -> Result<(Lane<Gated<P, G>>, [Port; 4]), AllocError>
    requires hosts { setup.hosts ≡ 4 }
    requires channel { channel < setup.channels }
    ensures opened { IfOk result (λ o. IsOpened setup rows.now channel gate o.0) }
    ensures ends { IfOk result (λ o. AreEndsOf (lane_queues o.0) o.1) }
    ensures new { IfOk result (λ o. AreNewPorts rows.now channel o.1) }
{
    let answers = places(alloc, rows, channel)?;
    let ends = Ends::open(alloc, &setup, channel)?;
    let lane = open_lane(
        alloc,
        setup,
        rows,
        channel,
        way,
        gate,
        ends.intake,
        ends.posters,
    )?;
    Ok((lane, ports(ends.hosts, ends.inboxes, answers)))
}

impl Station {
    /// A host without ends.
    fn new(alloc: Global, number: u8) -> Station
        ensures number { result.number ≡ number }
        ensures none { result.ports.items ≡ [] }
    {
        Station {
            number,
            ports: Vec::new(alloc),
            passed: 0,
            short_of_memory: false,
        }
    }

    /// With its ends on one channel more.
    fn with_port(self, port: Port) -> Result<Station, AllocError>
        ensures number { IfOk result (λ s. s.number ≡ self.number) }
        ensures more { IfOk result (λ s. s.ports.items ≡ self.ports.items ++ port ∷ []) }
    {
        let mut station = self;
        station.ports.push(port)?;
        Ok(station)
    }
}

/// The hosts with their ends on one channel more.
fn with_ports(stations: [Station; 4], ports: [Port; 4]) -> Result<[Station; 4], AllocError>
    ensures numbers { IfOk result (λ all. map (λ s. s.number) all ≡ map (λ s. s.number) stations) }
    ensures more { IfOk result (λ all. ports_of all ≡ with_each (ports_of stations) ports) }
{
    let (s0, s1, s2, s3) = split_hosts(stations);
    let (p0, p1, p2, p3) = split_hosts(ports);
    Ok([
        s0.with_port(p0)?,
        s1.with_port(p1)?,
        s2.with_port(p2)?,
        s3.with_port(p3)?,
    ])
}

impl<P: Planner + Copy + Drop, G: Gate + Drop> Stage<P, G> {
    /// No channel, and four hosts.
    fn new(alloc: Global) -> Stage<P, G>
        ensures lanes { result.lanes.items ≡ [] }
        ensures linked { AreLinked [] result.stations }
        ensures new { (rows : List ARow) → AreNew rows 0 result.stations }
    {
        Stage {
            lanes: Vec::new(alloc),
            stations: [
                Station::new(alloc, 0),
                Station::new(alloc, 1),
                Station::new(alloc, 2),
                Station::new(alloc, 3),
            ],
        }
    }

    /// With one channel more, and the ports of its hosts.
    fn with_channel(
        self,
        lane: Lane<Gated<P, G>>,
        ports: [Port; 4],
    ) -> Result<Stage<P, G>, AllocError>
        requires ends { AreEndsOf (lane_queues lane) ports }
        requires linked { AreLinked (map lane_queues self.lanes.items) self.stations }
        ensures lanes { IfOk result (λ s. s.lanes.items ≡ self.lanes.items ++ lane ∷ []) }
        ensures linked { IfOk result (λ s. AreLinked (map lane_queues s.lanes.items) s.stations) }
        ensures new { IfOk result (λ s. (rows : List ARow) (channels : ℕ) → AreNew rows channels self.stations → AreNewPorts rows channels ports → AreNew rows (channels + 1) s.stations) }
    {
        let Stage {
            mut lanes,
            stations,
        } = self;
        lanes.push(lane)?;
        let stations = with_ports(stations, ports)?;
        Ok(Stage { lanes, stations })
    }

    /// As many channels as gates, which go that way, each by a copy of its planner; gate i is that of channel i.
    fn open_each(
        alloc: Global,
        setup: Setup,
        rows: &[Row],
        way: Way<P>,
        gates: Vec<G>,
    ) -> Result<Stage<P, G>, AllocError>
        requires hosts { setup.hosts ≡ 4 }
        requires gates { length gates.items ≤ setup.channels }
        ensures opened { IfOk result (λ s. AreOpened setup rows.now 0 gates.items s.lanes.items) }
        ensures linked { IfOk result (λ s. AreLinked (map lane_queues s.lanes.items) s.stations) }
        ensures new { IfOk result (λ s. AreNew rows.now (length gates.items) s.stations) }
    {
        let mut left = gates;
        let Some(gate) = left.pop() else {
            return Ok(Stage::new(alloc));
        };
        let channel = left.len() as u8;
        let stage = Stage::open_each(alloc, setup, rows, way, left)?;
        let (lane, ports) = open_channel(alloc, setup, rows, channel, way, gate)?;
        stage.with_channel(lane, ports)
    }

    /// The channels that the rows set up on the device, and their hosts. Each channel goes that way, by a copy of its
    /// planner, since nothing else here is of its type; gate i is that of channel i, and gates of channels that aren't
    /// there are dropped.
    ///
    /// # Errors
    /// Where memory was refused.
    pub(crate) fn open(
        alloc: Global,
        rows: &[Row],
        device: &StatedDevice,
        way: Way<P>,
        gates: Vec<G>,
    ) -> Result<Stage<P, G>, AllocError>
        requires gates { length gates.items ≡ 4 }
        ensures opened { IfOk result (λ s. AreOpenedOn rows.now device.now.chips way gates.items s.lanes.items) }
        ensures linked { IfOk result (λ s. AreLinked (map lane_queues s.lanes.items) s.stations) }
        ensures new { IfOk result (λ s. AreNew rows.now (channels_in rows.now) s.stations) }
        ensures count { IfOk result (λ s. length s.lanes.items ≡ channels_in rows.now) }
    {
        let setup = setup_of(rows, device, way.limit, way.choice);
        let mut gates = gates;
        gates.truncate(usize::from(setup.channels));
        Stage::open_each(alloc, setup, rows, way, gates)
    }
}
