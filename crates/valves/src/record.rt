// The valve record, and the ticket of one move.
ghost use Rattle.std.specs.Prelude.{◌≡◌};
ghost use Rattle.valves.specs.Record.{valve_of, ticket_of};

// The position in steps, and the count of moves made. Any numbers can be handed in.
#[derive(Clone, Copy)]
pub struct Valve {
    pub position: i32,
    pub count: i32,
}

// A move in steps, and the count of the record that it was asked for.
#[derive(Clone, Copy)]
pub struct Ticket {
    pub steps: i32,
    pub count: i32,
}

// Every record and every ticket is made here.
pub fn valve_of(position: i32, count: i32) -> Valve
    ensures { result ≡ valve_of position count }
{
    Valve { position, count }
}

pub fn ticket_of(steps: i32, count: i32) -> Ticket
    ensures { result ≡ ticket_of steps count }
{
    Ticket { steps, count }
}
