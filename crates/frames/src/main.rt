// Program: the frame program. A frame of hexadecimal a line in, an answer a line out.
#![tactic(auto)]

fn main(rt: HostRuntime) {
    shell::start(&rt);
}
